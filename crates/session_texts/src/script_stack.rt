ghost use Rattle.std.specs.Prelude.{◌≡◌, ◌<◌, ◌≤◌, [], ◌∷◌, false, length, IsTrue, MatchOption, IfOk, IfSome};

use crate::open_script::OpenScript;
use command_session::CommandFault;
use std::alloc::{AllocError, Global};
use std::marker::Model;

/// How many scripts can be open.
const MOST: usize = 10;

/// The scripts that are open. Their room was taken before, so that none of these calls takes memory.
#[derive(Drop)]
pub struct ScriptStack {
    // The innermost is the last.
    scripts: Vec<OpenScript>,
}

impl Model for ScriptStack {
    ghost use Rattle.std.specs.Prelude.{◌≤◌, List, reverse, vec_len, vec_capacity};
    ghost use Rattle.session_texts.specs.Scripts.{Script};

    ghost Value = { List Script };

    ghost view = { λ s. reverse s.scripts.items };

    ghost invariant = { λ s. (vec_len s.scripts ≤ 10) × (10 ≤ vec_capacity s.scripts) };
}

impl ScriptStack {
    ghost use Rattle.std.specs.Prelude.{is_ok, Ok, Err, MatchResult};
    ghost use Rattle.command_session.specs.declared.fault.CommandFault.{CommandFault};
    ghost use Rattle.session_texts.specs.Scripts.{still_open, behind_failure, label_in, jumped_to};

    /// No script yet, and the room for ten.
    pub fn new(alloc: Global) -> Result<ScriptStack, AllocError>
        ensures { IfOk result (λ scripts. scripts ≡ []) }
    {
        Ok(ScriptStack {
            scripts: Vec::with_capacity(alloc, MOST)?,
        })
    }

    /// Whether no more scripts can be open.
    pub fn is_full(&self) -> bool
        ensures room { result ≡ false → length self.now < 10 }
        ensures full { IsTrue result → 10 ≤ length self.now }
    {
        self.scripts.len() == MOST
    }

    /// How many scripts are open.
    pub fn len(&self) -> usize
        ensures { result ≡ length self.now }
    {
        self.scripts.len()
    }

    /// Opens a script as the innermost.
    pub fn push(&mut self, script: OpenScript)
        requires { length self.old < 10 }
        ensures { self.new ≡ script ∷ self.old }
    {
        self.scripts.push(script).unwrap();
    }

    /// Takes the innermost script.
    pub fn pop(&mut self) -> Option<OpenScript>
        ensures taken { MatchOption result ((self.old ≡ []) × (self.new ≡ []))
            (λ script. self.old ≡ script ∷ self.new) }
        ensures room { IfSome result (λ _. length self.new < 10) }
    {
        self.scripts.pop()
    }

    /// Takes the innermost script that has another line. Those within it are closed.
    pub fn pop_open(&mut self) -> Option<OpenScript>
        ensures taken { MatchOption result ((still_open self.old ≡ []) × (self.new ≡ []))
            (λ script. still_open self.old ≡ script ∷ self.new) }
        ensures line { IfSome result (λ script. script.place < length script.text) }
        ensures room { IfSome result (λ _. length self.new < 10) }
    {
        while let Some(script) = self.pop() {
            if script.has_line() {
                return Some(script);
            }
        }
        None
    }

    /// Goes on in the innermost script with the first line that is that label.
    pub fn go_to(&mut self, label: &[u8]) -> Result<(), CommandFault>
        ensures found { MatchResult result (λ _. IsTrue (is_ok (label_in label.now self.old)))
            (λ fault. label_in label.now self.old ≡ Err fault) }
        ensures jumps { self.new ≡ jumped_to (label_in label.now self.old) self.old }
    {
        let Some(mut script) = self.pop() else {
            return Err(CommandFault::NotInDo);
        };
        let found = script.go_to(label);
        self.push(script);
        if found {
            Ok(())
        } else {
            Err(CommandFault::NoLabel)
        }
    }

    /// Ends the innermost script behind a failed command, where `ends` says so or the script is strict; and so on,
    /// since its DO is a failed command of the next one.
    pub fn fail(&mut self, mut ends: bool)
        ensures { self.new ≡ behind_failure ends self.old }
    {
        while let Some(script) = self.pop() {
            let over = ends || script.is_strict();
            if !over {
                self.push(script);
                return;
            }
            ends = false;
        }
    }
}
