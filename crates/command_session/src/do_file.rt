ghost use Rattle.std.specs.Prelude.{◌≡◌, ◌≤◌, ◌^◌, length};

use std::marker::Model;

/// The text of a script: up to 1048576 bytes.
#[derive(Drop)]
pub struct ScriptText {
    bytes: Vec<u8>,
}

impl Model for ScriptText {
    ghost use Rattle.std.specs.Prelude.{ℕ, List, ◌≤◌, ◌^◌, length};

    ghost Value = { List ℕ };

    ghost view = { λ t. t.bytes.items };

    ghost invariant = { λ t. length t.bytes.items ≤ 2 ^ 20 };
}

impl ScriptText {
    /// The text that has these bytes. It takes no memory.
    pub fn new(bytes: Vec<u8>) -> ScriptText
        requires { length bytes.items ≤ 2 ^ 20 }
        ensures { result ≡ bytes.items }
    {
        ScriptText { bytes }
    }

    /// Its bytes.
    pub fn as_slice(&self) -> &[u8]
        ensures text { result.now ≡ self.now }
        ensures bound { length result.now ≤ 2 ^ 20 }
    {
        self.bytes.as_slice()
    }
}

/// A script that was read whole, and how its lines are done.
#[derive(Drop)]
pub struct DoFile {
    pub text: ScriptText,
    /// Whether each line is printed before it is done.
    pub echo: bool,
    /// Whether the first failed command ends it.
    pub strict: bool,
}
