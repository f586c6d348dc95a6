ghost use Rattle.std.specs.Prelude.{◌≡◌, ◌≤◌, ◌^◌, ◌&&◌, nat_eq, nat_le, slice_index, codes, bytes_eq, string_bytes};
ghost use Rattle.std.specs.Prelude.{length, IfSome};
ghost use Rattle.std.specs.List.{list_all};
ghost use Rattle.command_words.specs.Words.{limit_of, budget_of, workload_of, is_file_name, next_choice, chosen_option};
ghost use Rattle.command_words.specs.Words.{all_chosen};
ghost use Rattle.command_words.specs.Words.{wants_option, names_script, are_arguments, with_script, options_of, texts_of};
ghost use Rattle.command_words.specs.Words.{FilesAreNamed};

use crate::counts::read_count;
use crate::options::{Choices, Options, Wanted};
use command_session::MOST_INSTRUCTIONS;

/// How many units a session has to pay for its lines where the words don't say. They can't say more.
const USUAL_BUDGET: u64 = 1 << 32;

/// The largest number of a workload.
const LARGEST_WORKLOAD: u64 = 65535;

/// How many bytes the name of a file has at most.
const LONGEST_NAME: usize = 255;

/// How many arguments a script has at most.
const MOST_ARGUMENTS: usize = 9;

/// What the words choose, where they are in their grammar: `-q`, `-l instructions`, `-m commands`, `-k keysfile` and
/// `-g number`, in any order, each at most once, and then, without `-g`, perhaps a script and its arguments.
#[tactic(auto, unfolding(crate::specs::Words::options_of))]
pub fn options_of(words: &[String]) -> Option<Options>
    ensures options { result ≡ options_of (texts_of words.now) }
    ensures named { IfSome result (FilesAreNamed (texts_of words.now)) }
    ensures budget { IfSome result (λ options. options.budget ≤ 2 ^ 32) }
{
    let mut choices = Choices {
        quiet: false,
        limit: None,
        budget: None,
        keys: None,
        workload: None,
        wanted: Wanted::Option,
    };
    for place in 0..words.len() {
        let word = &words[place];
        if is_script(choices, word) {
            return with_script(choices, place, word, &words[place + 1..]);
        }
        match next_choice(choices, place, word) {
            Some(next) => choices = next,
            None => return None,
        }
    }
    all_chosen(choices)
}

/// Whether a word behind those choices is the name of a script.
fn is_script(choices: Choices, word: &String) -> bool
    ensures { result ≡ (wants_option choices.wanted && names_script (string_bytes word.now)) }
{
    matches!(choices.wanted, Wanted::Option) && names_script(word.as_bytes())
}

/// What all words chose, with a script of that name at that place and these arguments.
fn with_script(
    choices: Choices,
    place: usize,
    name: &String,
    arguments: &[String],
) -> Option<Options>
    ensures { result ≡ with_script place choices (string_bytes name.now) (texts_of arguments.now) }
{
    if !(is_file_name(name) && are_arguments(arguments) && choices.workload.is_none()) {
        return None;
    }
    match all_chosen(choices) {
        Some(options) => Some(Options {
            script: Some(place),
            ..options
        }),
        None => None,
    }
}

/// Whether these words can be the arguments of a script.
fn are_arguments(words: &[String]) -> bool
    ensures { result ≡ are_arguments (texts_of words.now) }
{
    words.len() <= MOST_ARGUMENTS && have_bytes(words)
}

/// Whether none of the words is empty.
fn have_bytes(words: &[String]) -> bool
    ensures { result ≡ list_all (λ word. nat_le 1 (length (string_bytes word))) words.now }
{
    words.iter().all(|word| word.as_bytes().len() >= 1)
}

/// What the words chose, with one more, which stands at that place.
#[tactic(auto, unfolding(crate::specs::Words::next_choice))]
fn next_choice(choices: Choices, place: usize, word: &String) -> Option<Choices>
    ensures { result ≡ next_choice place choices (string_bytes word.now) }
{
    match choices.wanted {
        Wanted::Option => chosen_option(choices, word),
        Wanted::Limit => match limit_of(word) {
            Some(limit) => Some(Choices {
                limit: Some(limit),
                wanted: Wanted::Option,
                ..choices
            }),
            None => None,
        },
        Wanted::Budget => match budget_of(word) {
            Some(budget) => Some(Choices {
                budget: Some(budget),
                wanted: Wanted::Option,
                ..choices
            }),
            None => None,
        },
        Wanted::Keys => {
            if is_file_name(word) {
                Some(Choices {
                    keys: Some(place),
                    wanted: Wanted::Option,
                    ..choices
                })
            } else {
                None
            }
        }
        Wanted::Workload => match workload_of(word) {
            Some(number) => Some(Choices {
                workload: Some(number),
                wanted: Wanted::Option,
                ..choices
            }),
            None => None,
        },
    }
}

/// The same where an option is wanted.
#[tactic(auto, unfolding(crate::specs::Words::chosen_option))]
fn chosen_option(choices: Choices, word: &String) -> Option<Choices>
    ensures { result ≡ chosen_option choices (string_bytes word.now) }
{
    if is_word(word, b"-q") && !choices.quiet {
        Some(Choices {
            quiet: true,
            ..choices
        })
    } else if is_word(word, b"-l") && choices.limit.is_none() {
        Some(Choices {
            wanted: Wanted::Limit,
            ..choices
        })
    } else if is_word(word, b"-m") && choices.budget.is_none() {
        Some(Choices {
            wanted: Wanted::Budget,
            ..choices
        })
    } else if is_word(word, b"-k") && choices.keys.is_none() {
        Some(Choices {
            wanted: Wanted::Keys,
            ..choices
        })
    } else if is_word(word, b"-g") && choices.workload.is_none() {
        Some(Choices {
            wanted: Wanted::Workload,
            ..choices
        })
    } else {
        None
    }
}

/// What all words chose, where none is missing.
#[tactic(auto, unfolding(crate::specs::Words::all_chosen))]
fn all_chosen(choices: Choices) -> Option<Options>
    ensures { result ≡ all_chosen choices }
{
    match choices.wanted {
        Wanted::Option => Some(Options {
            prompt: !choices.quiet,
            limit: choices.limit.unwrap_or(MOST_INSTRUCTIONS),
            budget: choices.budget.unwrap_or(USUAL_BUDGET),
            keys: choices.keys,
            workload: choices.workload,
            script: None,
        }),
        Wanted::Limit | Wanted::Budget | Wanted::Keys | Wanted::Workload => None,
    }
}

/// Whether a word has these bytes.
fn is_word(word: &String, bytes: &[u8]) -> bool
    ensures { result ≡ bytes_eq (string_bytes word.now) bytes.now }
{
    word.as_bytes() == bytes
}

/// Whether a file can have that name: it has 1 to 255 bytes.
fn is_file_name(word: &String) -> bool
    ensures { result ≡ is_file_name (string_bytes word.now) }
{
    let count = word.as_bytes().len();
    1 <= count && count <= LONGEST_NAME
}

/// A limit of instructions, from 1 to 2^48, without a leading zero.
#[tactic(auto, unfolding(crate::specs::Words::limit_of))]
fn limit_of(word: &String) -> Option<u64>
    ensures { result ≡ limit_of (string_bytes word.now) }
{
    let text = word.as_bytes();
    if begins_with_zero(text) {
        None
    } else {
        read_count(text)
    }
}

/// A budget of lines and actions, from 1 to 2^32, without a leading zero.
#[tactic(auto, unfolding(crate::specs::Words::budget_of))]
fn budget_of(word: &String) -> Option<u64>
    ensures { result ≡ budget_of (string_bytes word.now) }
{
    match limit_of(word) {
        Some(budget) if budget <= USUAL_BUDGET => Some(budget),
        _ => None,
    }
}

/// The number of a workload, from 1 to 65535, without a leading zero.
#[tactic(auto, unfolding(crate::specs::Words::workload_of))]
fn workload_of(word: &String) -> Option<u16>
    ensures { result ≡ workload_of (string_bytes word.now) }
{
    match limit_of(word) {
        Some(number) if number <= LARGEST_WORKLOAD => Some(number as u16),
        _ => None,
    }
}

fn begins_with_zero(text: &[u8]) -> bool
    ensures { result ≡ nat_eq (slice_index text.now 0) 48 }
{
    !text.is_empty() && text[0] == b'0'
}

fn names_script(word: &[u8]) -> bool
    ensures { result ≡ names_script word.now }
{
    word.is_empty() || word[0] != b'-'
}
