// Saved sessions compared, field by field.
use state_file::{Saved, SavedBreak, SavedCpu, SavedExpect, SavedFile, SavedUnit};

/// Whether two sessions are the same.
pub fn same(found: &Saved, wanted: &Saved) -> bool {
    same_machine(found, wanted)
        && same_units_and_events(found, wanted)
        && same_outside(found, wanted)
        && same_stops(found, wanted)
        && same_bytes(found, wanted)
}

fn same_machine(found: &Saved, wanted: &Saved) -> bool {
    same_cpu(&found.cpu, &wanted.cpu) && found.words == wanted.words
}

fn same_units_and_events(found: &Saved, wanted: &Saved) -> bool {
    same_units(&found.units, &wanted.units) && found.agenda == wanted.agenda
}

fn same_outside(found: &Saved, wanted: &Saved) -> bool {
    same_files(&found.attachments, &wanted.attachments) && found.ports == wanted.ports
}

fn same_stops(found: &Saved, wanted: &Saved) -> bool {
    same_breaks(&found.breaks, &wanted.breaks) && same_expects(&found.expects, &wanted.expects)
}

fn same_bytes(found: &Saved, wanted: &Saved) -> bool {
    found.tail == wanted.tail && found.sends == wanted.sends
}

fn same_cpu(found: &SavedCpu, wanted: &SavedCpu) -> bool {
    found.size_k == wanted.size_k
        && found.acs == wanted.acs
        && found.carry == wanted.carry
        && found.pc == wanted.pc
        && found.on == wanted.on
        && found.hold == wanted.hold
        && found.mask == wanted.mask
        && found.sr == wanted.sr
        && found.stop_dev == wanted.stop_dev
        && found.time == wanted.time
        && found.keys_taken == wanted.keys_taken
}

fn same_units(found: &[SavedUnit], wanted: &[SavedUnit]) -> bool {
    found.len() == wanted.len()
        && found.iter().zip(wanted.iter()).all(|(a, b)| a.position == b.position
            && a.registers == b.registers)
}

fn same_breaks(found: &[SavedBreak], wanted: &[SavedBreak]) -> bool {
    found.len() == wanted.len()
        && found.iter().zip(wanted.iter()).all(|(a, b)| a.address == b.address
            && a.count == b.count
            && a.actions == b.actions)
}

fn same_expects(found: &[SavedExpect], wanted: &[SavedExpect]) -> bool {
    found.len() == wanted.len()
        && found.iter().zip(wanted.iter()).all(|(a, b)| a.count == b.count
            && a.text == b.text
            && a.actions == b.actions)
}

pub fn same_files(found: &[SavedFile], wanted: &[SavedFile]) -> bool {
    found.len() == wanted.len()
        && found
            .iter()
            .zip(wanted.iter())
            .all(|(a, b)| same_file(a, b))
}

fn same_file(found: &SavedFile, wanted: &SavedFile) -> bool {
    found.position == wanted.position
        && found.unit == wanted.unit
        && found.read_only == wanted.read_only
        && found.name == wanted.name
        && found.length == wanted.length
        && found.digest == wanted.digest
}
