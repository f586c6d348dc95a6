// The files that the words name: the keys file and the script.
ghost use Rattle.std.specs.Prelude.{◌≡◌, ◌≢◌, ◌+◌, ◌<◌, ◌≤◌, ◌++◌, ℕ, List, [], IsTrue, IfOk, IfErr, IfSome, Err};
ghost use Rattle.std.specs.Prelude.{string_bytes, length, get_or, is_some, vec_len, vec_capacity};
ghost use Rattle.unit_files.specs.Attachments.{no_files};
ghost use Rattle.file_commands.specs.Counts.{one_if};
ghost use Rattle.file_commands.specs.Notes.{notes_said};
ghost use Rattle.file_commands.specs.OwnFiles.{AreOwn};
ghost use Rattle.file_commands.specs.declared.note.Subject.TheVariants as subject;
ghost use Rattle.whole_files.specs.Whole.{longest_file};
ghost use Rattle.whole_files.specs.Claims.{said_of_bytes};
ghost use Rattle.command_words.specs.Words.{texts_of, keys_name, script_name, script_words, FilesAreNamed};
ghost use Rattle.program_start.specs.Start.{keys_from, taken_keys, script_from, taken_script};
ghost use Rattle.program_start.specs.WordFiles.{noted_call, ReadsFile, ComesOf, Takes, RefusalCause, BeginsAs};
ghost use Rattle.program_start.specs.WordFiles.{AddsClosings, IsUnrefused, AddsNoted};
ghost use Rattle.program_start.specs.WordFiles.{AreWordClosings};
ghost use Rattle.program_start.specs.WordFiles.{NamesTold};
ghost use Rattle.program_start.specs.Unread.{WordCause, AnswersRead, TakesCause, BeginsCause, keys_ids};
ghost use Rattle.program_start.specs.WordCounts.{files_named, CountsWordFiles};
ghost use Rattle.program_start.specs.declared.word_files.Refusal.TheVariants.{OutOfMemory};
ghost use Rattle.whole_files.specs.declared.whole.WholeFault.TheVariants as whole_faults;
ghost use Rattle.program_start.specs.Workload.{first_text};

use crate::workload::first_text;
use command_session::ScriptText;
use command_words::Options;
use expect_actions::{Keys, KeysFault};
use file_commands::{FaultNote, Subject, keep};
use file_traits::Files;
use std::alloc::{AllocError, Global};
use whole_files::{FailedCall, WholeFault, read_file};

/// Why there is no session.
#[derive(Clone, Copy, Debug, PartialEq, Eq)]
pub enum Refusal {
    /// The file of the word at that place is not there, or too long, or a call on it failed.
    Unopened(usize),
    /// The keys file is none: its first faulty line begins at that place, counted from 0.
    BadKeys(usize),
    /// Memory ran out.
    OutOfMemory,
}

/// What a session begins with.
#[derive(Drop)]
pub struct Beginning {
    /// The keys of the keys file, or none.
    pub keys: Keys,
    /// The commands of the workload, or the script that the words name.
    pub script: Option<ScriptText>,
    /// The script's name, and then its arguments.
    pub arguments: Vec<String>,
}

/// Reads the keys file and then the script, where the words name them, and notes the calls on them that failed, before
/// the first command.
pub fn begin<F: Files>(
    alloc: Global,
    words: &[String],
    options: Options,
    files: &mut F,
    notes: &mut Vec<FaultNote>,
) -> Result<Beginning, Refusal>
    requires named { FilesAreNamed (texts_of words.now) options }
    requires none { notes.old.items ≡ [] }
    requires room { 4 ≤ vec_capacity notes.old }
    ensures told { NamesTold F.tells options → BeginsAs (texts_of words.now) options (F.state files.old).files
        (notes_said notes.new.items) result }
    ensures arguments { IfOk result (λ beginning.
        texts_of beginning.arguments.items ≡ script_words (texts_of words.now) options) }
    ensures cause { IfErr result (RefusalCause (texts_of words.now) options) }
    ensures files { NamesTold F.tells options → (F.state files.new).files ≡ (F.state files.old).files }
    ensures opened { (F.state files.new).opened ≡ (F.state files.old).opened }
    ensures keeps { AddsNoted [] notes.new.items (F.state files.old) (F.state files.new) }
    ensures whose { AreOwn no_files no_files [] notes.new.items (F.state files.old) (F.state files.new) }
    ensures closings { result ≡ Err OutOfMemory → AreWordClosings (notes_said notes.new.items) }
    ensures unread { BeginsCause F.tells (texts_of words.now) options result notes.new.items (F.state files.old)
        (F.state files.new) }
    ensures exact { CountsWordFiles F.tells (files_named options) result [] notes.new.items (F.state files.old)
        (F.state files.new) }
{
    let keys = take_keys(alloc, words, options, files, notes)?;
    let script = take_script(alloc, words, options, files, notes)?;
    match beginning_of(alloc, words, options, keys, script) {
        Ok(beginning) => Ok(beginning),
        Err(_) => Err(Refusal::OutOfMemory),
    }
}

/// What a session begins with, where the words name a script of that text, or none. Memory is taken for the words that
/// are its name and its arguments, and for the commands of a workload.
fn beginning_of(
    alloc: Global,
    words: &[String],
    options: Options,
    keys: Keys,
    script: Option<ScriptText>,
) -> Result<Beginning, AllocError>
    requires named { FilesAreNamed (texts_of words.now) options }
    ensures keys { IfOk result (λ beginning. beginning.keys ≡ keys) }
    ensures script { IfOk result (λ beginning. beginning.script ≡ first_text options.workload script) }
    ensures arguments { IfOk result (λ beginning.
        texts_of beginning.arguments.items ≡ script_words (texts_of words.now) options) }
{
    let arguments = copy_script_words(alloc, words, options)?;
    let script = first_text(alloc, options.workload, script)?;
    Ok(Beginning {
        keys,
        script,
        arguments,
    })
}

/// The keys of the keys file, where the words name one.
fn take_keys<F: Files>(
    alloc: Global,
    words: &[String],
    options: Options,
    files: &mut F,
    notes: &mut Vec<FaultNote>,
) -> Result<Keys, Refusal>
    requires named { FilesAreNamed (texts_of words.now) options }
    requires room { vec_len notes.old + 2 ≤ vec_capacity notes.old }
    ensures told { NamesTold F.tells options → Takes subject.Keys (texts_of words.now)
        (taken_keys (keys_name (texts_of words.now) options) (F.state files.old).files) notes.old.items notes.new.items
        result }
    ensures cause { IfErr result (RefusalCause (texts_of words.now) options) }
    ensures room { vec_len notes.new + vec_capacity notes.old ≤ vec_len notes.old + 2 + vec_capacity notes.new }
    ensures files { NamesTold F.tells options → (F.state files.new).files ≡ (F.state files.old).files }
    ensures opened { (F.state files.new).opened ≡ (F.state files.old).opened }
    ensures keeps { AddsNoted notes.old.items notes.new.items (F.state files.old) (F.state files.new) }
    ensures whose { AreOwn no_files no_files notes.old.items notes.new.items (F.state files.old) (F.state files.new) }
    ensures closings { IsUnrefused result → AddsClosings notes.old.items notes.new.items }
    ensures unread { TakesCause F.tells subject.Keys (keys_name (texts_of words.now) options) result notes.old.items
        notes.new.items (F.state files.old) (F.state files.new) }
    ensures ids { (F.state files.new).given ≤ (F.state files.old).given + keys_ids options.keys }
    ensures taken { IfOk result (λ keys.
        (F.state files.new).given ≡ (F.state files.old).given + keys_ids options.keys) }
    ensures exact { CountsWordFiles F.tells (one_if (is_some options.keys)) result notes.old.items notes.new.items
        (F.state files.old) (F.state files.new) }
{
    match options.keys {
        Some(place) => {
            let read = read_word(alloc, Subject::Keys, &words[place], files, notes);
            keys_of(alloc, place, read)
        }
        None => Ok(Keys::none(alloc)),
    }
}

/// The text of the script, where the words name one.
fn take_script<F: Files>(
    alloc: Global,
    words: &[String],
    options: Options,
    files: &mut F,
    notes: &mut Vec<FaultNote>,
) -> Result<Option<ScriptText>, Refusal>
    requires named { FilesAreNamed (texts_of words.now) options }
    requires room { vec_len notes.old + 2 ≤ vec_capacity notes.old }
    ensures told { NamesTold F.tells options → Takes subject.Script (texts_of words.now)
        (taken_script (script_name (texts_of words.now) options) (F.state files.old).files) notes.old.items
        notes.new.items result }
    ensures cause { IfErr result (RefusalCause (texts_of words.now) options) }
    ensures files { NamesTold F.tells options → (F.state files.new).files ≡ (F.state files.old).files }
    ensures opened { (F.state files.new).opened ≡ (F.state files.old).opened }
    ensures keeps { AddsNoted notes.old.items notes.new.items (F.state files.old) (F.state files.new) }
    ensures whose { AreOwn no_files no_files notes.old.items notes.new.items (F.state files.old) (F.state files.new) }
    ensures closings { IsUnrefused result → AddsClosings notes.old.items notes.new.items }
    ensures unread { TakesCause F.tells subject.Script (script_name (texts_of words.now) options) result
        notes.old.items notes.new.items (F.state files.old) (F.state files.new) }
    ensures exact { CountsWordFiles F.tells (one_if (is_some options.script)) result notes.old.items notes.new.items
        (F.state files.old) (F.state files.new) }
{
    match options.script {
        Some(place) => {
            let read = read_word(alloc, Subject::Script, &words[place], files, notes);
            script_of(place, read)
        }
        None => Ok(None),
    }
}

/// Reads the file of a word, and notes the calls on it that failed.
fn read_word<F: Files>(
    alloc: Global,
    whose: Subject,
    name: &String,
    files: &mut F,
    notes: &mut Vec<FaultNote>,
) -> Result<Vec<u8>, WholeFault>
    requires room { vec_len notes.old + 2 ≤ vec_capacity notes.old }
    ensures told { IsTrue F.tells → ReadsFile whose (string_bytes name.now) (F.state files.old).files notes.old.items
        notes.new.items result }
    ensures bound { IfOk result (λ bytes. length bytes.items ≤ longest_file) }
    ensures room { vec_len notes.new + vec_capacity notes.old ≤ vec_len notes.old + 2 + vec_capacity notes.new }
    ensures files { IsTrue F.tells → (F.state files.new).files ≡ (F.state files.old).files }
    ensures opened { (F.state files.new).opened ≡ (F.state files.old).opened }
    ensures keeps { AddsNoted notes.old.items notes.new.items (F.state files.old) (F.state files.new) }
    ensures whose { AreOwn no_files no_files notes.old.items notes.new.items (F.state files.old) (F.state files.new) }
    ensures closings { result ≢ Err whole_faults.Failed → AddsClosings notes.old.items notes.new.items }
    ensures unread { WordCause F.tells whose (string_bytes name.now) result notes.old.items notes.new.items
        (F.state files.old) (F.state files.new) }
    ensures one { (F.state files.new).given ≤ (F.state files.old).given + 1 }
    ensures taken { IfOk result (λ bytes. (F.state files.old).given < (F.state files.new).given) }
{
    let whole = read_file(alloc, name.as_str(), files);
    note_call(whose, notes, whole.failed);
    note_call(whose, notes, whole.closing);
    whole.bytes
}

/// Notes a call on the file of a word, where it failed, before the first command.
fn note_call(whose: Subject, notes: &mut Vec<FaultNote>, failed: Option<FailedCall>)
    requires { vec_len notes.old + 1 ≤ vec_capacity notes.old }
    ensures notes { notes.new.items ≡ notes.old.items ++ noted_call whose failed }
    ensures room { vec_len notes.new + vec_capacity notes.old ≤ vec_len notes.old + 1 + vec_capacity notes.new }
{
    match failed {
        None => (),
        Some(failed) => keep(
            notes,
            FaultNote {
                command: 0,
                time: 0,
                subject: whose,
                file: failed.file,
                call: failed.call,
                done: 0,
            },
        ),
    }
}

/// The keys of what was read of the keys file, which the word at that place names.
fn keys_of(alloc: Global, place: usize, read: Result<Vec<u8>, WholeFault>) -> Result<Keys, Refusal>
    ensures comes { (words : List (List ℕ)) → ComesOf words (keys_from (get_or words place [])) (said_of_bytes read)
        result }
    ensures named { (words : List (List ℕ)) (options : Options) → place < length words → options.keys ≡ Some place
        → IfErr result (RefusalCause words options) }
    ensures unfailed { IsUnrefused result → read ≢ Err whole_faults.Failed }
    ensures answers { AnswersRead read result }
{
    match read {
        Ok(bytes) => match Keys::read_keys(alloc, bytes.as_slice()) {
            Ok(keys) => Ok(keys),
            Err(KeysFault::Bad(line)) => Err(Refusal::BadKeys(line)),
            Err(KeysFault::OutOfMemory) => Err(Refusal::OutOfMemory),
        },
        Err(WholeFault::OutOfMemory) => Err(Refusal::OutOfMemory),
        Err(_) => Err(Refusal::Unopened(place)),
    }
}

/// The text of what was read of the script, which the word at that place names.
#[tactic(auto, unfolding(whole_files::specs::Whole::longest_file))]
fn script_of(place: usize, read: Result<Vec<u8>, WholeFault>) -> Result<Option<ScriptText>, Refusal>
    requires bound { IfOk read (λ bytes. length bytes.items ≤ longest_file) }
    ensures comes { (words : List (List ℕ)) → ComesOf words (script_from (get_or words place [])) (said_of_bytes read)
        result }
    ensures named { (words : List (List ℕ)) (options : Options) → place < length words → options.script ≡ Some place
        → IfErr result (RefusalCause words options) }
    ensures unfailed { IsUnrefused result → read ≢ Err whole_faults.Failed }
    ensures answers { AnswersRead read result }
{
    match read {
        Ok(bytes) => Ok(Some(ScriptText::new(bytes))),
        Err(WholeFault::OutOfMemory) => Err(Refusal::OutOfMemory),
        Err(_) => Err(Refusal::Unopened(place)),
    }
}

/// The name of the script and its arguments, where there is one.
fn copy_script_words(
    alloc: Global,
    words: &[String],
    options: Options,
) -> Result<Vec<String>, AllocError>
    requires { FilesAreNamed (texts_of words.now) options }
    ensures { IfOk result (λ copies. texts_of copies.items ≡ script_words (texts_of words.now) options) }
{
    match options.script {
        Some(place) => copy_words(alloc, &words[place..]),
        None => Ok(Vec::new(alloc)),
    }
}

fn copy_words(alloc: Global, words: &[String]) -> Result<Vec<String>, AllocError>
    ensures { IfOk result (λ copies. texts_of copies.items ≡ texts_of words.now) }
{
    let mut copies = Vec::new(alloc);
    for word in words {
        copies.push(word.clone()?)?;
    }
    Ok(copies)
}
