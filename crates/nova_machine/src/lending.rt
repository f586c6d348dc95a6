ghost use Rattle.std.specs.Prelude.{◌≡◌, slice_get, option_map, is_some, nat_lt, drop, Some};

use crate::machine::Machine;
use nova_memory::Memory;
use telnet_lines::Line;
use unit_files::Attached;
use unit_trait::Unit;

impl<U: Unit> Machine<U> {
    ghost use Rattle.std.specs.Borrow.{sem, Lends, LendsIf};
    ghost use Rattle.telnet_lines.specs.contracts.line.Line.{the_row as line_row};
    ghost use Rattle.nova_memory.specs.contracts.memory.Memory.{the_row as memory_row};
    ghost use Rattle.nova_machine.specs.contracts.machine.Machine.{the_row};
    ghost use Rattle.unit_files.specs.contracts.attached.Attached.{the_row as attached_row};
    ghost use Rattle.nova_machine.specs.Turn.{with_memory};
    ghost use Rattle.nova_machine.specs.Machine.{attached_files, with_attached_files, with_line, console_place, place_of, line_count};

    /// The machine's memory, to be changed as a person at the console or a loader does. It takes no time.
    pub fn memory_mut(&mut self) -> &mut Memory
        ensures* writes_back { sem 𝓛 (Lends (the_row U.row U.Unit) memory_row self.entry result (with_memory self.old)) }
        ensures value { result.now ≡ self.old.processor.memory }
    {
        &mut self.processor.memory
    }

    /// The terminal line with that number, to be given a port or none as a person at the console does. It takes no
    /// time. None exactly for a number that the machine lacks: line 0 is the second teletype's, and lines 1 to 64,
    /// behind it, are the multiplexer's.
    pub fn line(&mut self, number: u8) -> Option<&mut Line>
        ensures* writes_back { sem 𝓛 (LendsIf (the_row U.row U.Unit) line_row self.entry result
            (with_line self.old (place_of number)) self.old) }
        ensures value { option_map (λ l. l.now) result ≡ slice_get self.old.lines (place_of number) }
        ensures there { is_some result ≡ nat_lt number (line_count self.old.units) }
    {
        self.lines.get_mut(number as usize)
    }

    /// The terminal line with that number, as it stands; none exactly where `line` has none.
    pub fn line_at(&self, number: u8) -> Option<&Line>
        ensures value { option_map (λ l. l.now) result ≡ slice_get self.now.lines (place_of number) }
        ensures there { is_some result ≡ nat_lt number (line_count self.now.units) }
    {
        self.lines.get(number as usize)
    }

    /// The console line, to be given a port or none as a person at the console does. It takes no time.
    pub fn console(&mut self) -> &mut Line
        ensures* writes_back { sem 𝓛 (Lends (the_row U.row U.Unit) line_row self.entry result (with_line self.old console_place)) }
        ensures value { slice_get self.old.lines console_place ≡ Some result.now }
    {
        &mut self.console
    }

    /// The console line, as it stands.
    pub fn console_at(&self) -> &Line
        ensures { slice_get self.now.lines console_place ≡ Some result.now }
    {
        &self.console
    }

    /// All of its terminal lines, as they stand, without the console line.
    pub fn lines(&self) -> &[Line]
        ensures { result.now ≡ drop 1 self.now.lines }
    {
        &self.lines
    }

    /// The files of its units, to be attached and detached as a person at the console does. It takes no time.
    pub fn attached_mut(&mut self) -> &mut Attached
        ensures* writes_back { sem 𝓛 (Lends (the_row U.row U.Unit) attached_row self.entry result (with_attached_files self.old)) }
        ensures value { result.now ≡ attached_files self.old }
    {
        &mut self.attached
    }
}
