// What a stop prints.
ghost use Rattle.std.specs.Prelude.{◌≡◌, ◌<◌, ◌≤◌, ◌++◌, length, IsTrue};
ghost use Rattle.fault_counts.specs.Faults.{CountsFault};
ghost use Rattle.file_traits.specs.Streams.{Puts};
ghost use Rattle.unit_trait.specs.Kinds.{units_of, unit_name};
ghost use Rattle.nova_machine.specs.Wants.{HasUnit};
ghost use Rattle.command_session.specs.RunEffects.{stop_name, stop_text};

use command_session::unit_name;
use file_traits::{Failed, Sink, put_pieces};
use itoa::Buffer;
use line_text::Text;
use nova_machine::{Machine, Stop};
use unit_trait::{Unit, UnitName};

/// The longest name of a stop: "Bad tape image on ", the name of a unit, " at " and a place.
const LONGEST_NAME: usize = 52;

/// Prints that a machine has stopped: the name of the stop, PC in five octal digits, and the word there in six.
#[tactic(auto, unfolding(command_session::specs::RunEffects::stop_text))]
pub fn put_stop<U: Unit, S: Sink>(
    stop: Stop,
    machine: &Machine<U>,
    out: &mut S,
) -> Result<(), Failed>
    requires { HasUnit stop }
    ensures told { IsTrue S.tells → Puts (S.written out.old) (stop_text stop machine.now) result (S.written out.new) }
    ensures counts { CountsFault (S.fault_count out.old) (S.fault_count out.new) result }
{
    let at = machine.pc();
    let word = machine.memory().read(at);
    let mut pc = Text::<12>::new();
    pc.push_octal(u32::from(at.number()), 5);
    let mut contents = Text::<12>::new();
    contents.push_octal(u32::from(word.0), 6);
    let name = stop_name(stop);
    put_pieces(
        out,
        &[
            b"\n",
            name.as_slice(),
            b", PC: ",
            pc.as_slice(),
            b" (",
            contents.as_slice(),
            b")\n",
        ],
    )
}

fn stop_name(stop: Stop) -> Text<LONGEST_NAME>
    requires { HasUnit stop }
    ensures { result ≡ stop_name stop }
{
    match stop {
        Stop::Halt => words(b"HALT instruction"),
        Stop::ChainLimit => words(b"Indirect chain limit"),
        Stop::UnknownDevice => words(b"Unknown device"),
        Stop::Break(_) => words(b"Breakpoint"),
        Stop::Expect(_) => words(b"Expect matched"),
        Stop::Stepped => words(b"Step expired"),
        Stop::Limit => words(b"Instruction limit"),
        Stop::UnitEnd(unit) => words_and_unit(b"End of file on ", unit),
        Stop::UnitNone(unit) => words_and_unit(b"No file attached to ", unit),
        Stop::BadImage(unit, place) => {
            let mut text = words_and_unit(b"Bad tape image on ", unit);
            text.push_all(b" at ");
            text.push_all(Buffer::new().format(place).as_bytes());
            text
        }
        Stop::Wru => words(b"Simulation stopped"),
        Stop::FileFault(fault) => words_and_unit(b"File error on ", fault.unit),
        Stop::ConsoleFault => Text::new(),
    }
}

fn words(bytes: &[u8]) -> Text<LONGEST_NAME>
    requires { length bytes.now ≤ 20 }
    ensures { result ≡ bytes.now }
{
    let mut text = Text::new();
    text.push_all(bytes);
    text
}

fn words_and_unit(bytes: &[u8], unit: UnitName) -> Text<LONGEST_NAME>
    requires room { length bytes.now ≤ 20 }
    requires unit { unit.unit < units_of unit.kind }
    ensures { result ≡ bytes.now ++ unit_name unit }
{
    let mut text = words(bytes);
    text.push_all(unit_name(unit).as_slice());
    text
}
