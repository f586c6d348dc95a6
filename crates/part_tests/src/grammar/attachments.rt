use crate::checked::holds;
use crate::grammar::faults::{refused, taken};
use crate::grammar::reading::all;
use scp_parser::{Command, ParseFault, Piece, Verb};
use std::process::Abort;

const ATTACH_TAKES_AN_OPTION_A_UNIT_AND_THE_REST_OF_THE_LINE: &str =
    "ATTACH PTR tape|Attach - PTR 0 11 15|tape
at ptr tape|Attach - PTR 0 7 11|tape
Atta PTP 1.x|Attach - PTP 0 9 12|1.x
AT -E PTR tape.bin|Attach E PTR 0 10 18|tape.bin
AT -e PTR a|Attach E PTR 0 10 11|a
AT -N DSK a|Attach N DSK 0 10 11|a
at -n dsk A|Attach N DSK 0 10 11|A
AT -R LPT a|Attach R LPT 0 10 11|a
AT -r lpt a|Attach R LPT 0 10 11|a
AT MTA a|Attach - MTA 0 7 8|a
AT MTA7 a|Attach - MTA 7 8 9|a
AT -n mta3 a|Attach N MTA 3 11 12|a
AT PTP  my tape \t |Attach - PTP 0 8 15|my tape
\tAT\tPTR\ta\tb\t|Attach - PTR 0 8 11|a\tb
AT PTR -E|Attach - PTR 0 7 9|-E
AT PTR ;no comment|Attach - PTR 0 7 18|;no comment
AT PTR \u{e9}\u{20ac}|Attach - PTR 0 7 12|\u{e9}\u{20ac}";

const ATTACH_TAKES_A_PORT_FOR_TERMINAL_LINES: &str = "AT TTI1 4000|AttachPort TTI1 4000
at tti1 0|AttachPort TTI1 0
ATTACH TTI1 0007|AttachPort TTI1 7
AT TTI1 65536 \t|AttachPort TTI1 65536
AT TTI1 9223372036854775809|AttachPort TTI1 max
ATTACH QTY 5000|AttachPort QTY 5000
at qty 0|AttachPort QTY 0
\tATT\tQty\t00065472\t|AttachPort QTY 65472
AT QTY 65473|AttachPort QTY 65473
AT QTY 9223372036854775808|AttachPort QTY 9223372036854775808
AT QTY 9223372036854775809|AttachPort QTY max";

const DETACH_TAKES_A_UNIT_OR_ALL: &str = "DETACH ALL|Detach -
det all |Detach -
DET PTR|Detach PTR 0
deta lpt\t|Detach LPT 0
DETACH MTA|Detach MTA 0
DETACH mta5|Detach MTA 5
DET TTI1|Detach TTI1 0
DETACH QTY|Detach QTY 0
det qty\t|Detach QTY 0";

#[test]
fn attach_and_detach_take_a_unit(rt: HostRuntime) {
    all(&rt, ATTACH_TAKES_AN_OPTION_A_UNIT_AND_THE_REST_OF_THE_LINE);
    all(&rt, ATTACH_TAKES_A_PORT_FOR_TERMINAL_LINES);
    all(&rt, DETACH_TAKES_A_UNIT_OR_ALL);
}

const ANSWERS_THE_FIRST_FAULT_OF_ATTACH_AND_DETACH: &str = "AT|Missing
AT -E|Missing
AT PTR|Missing
AT -n PTR \t|Missing
AT TTI1 |Missing
AT TTI1 X|BadNumber 8
AT TTI1 -1 2|BadNumber 8
AT TTI1 1 X|Extra 10
AT QTY|Missing
AT QTY \t|Missing
AT QTY lines|BadNumber 7
AT QTY -1 2|BadNumber 7
AT QTY 5000/64|BadNumber 7
AT QTY 5000 X|Extra 12
AT -E TTI1 1|BadName 6
AT -r  tti1|BadName 7
AT -N QTY 5000|BadName 6
AT -E QTY tape|BadName 6
at -r  qty|BadName 7
AT -X PTR p|BadName 3
AT -EN PTR p|BadName 3
AT E PTR p|BadName 3
AT -E -N PTR p|BadName 6
AT -E 1 p|BadNumber 6
AT 5 p|BadNumber 3
AT CLK p|BadName 3
AT TTI p|BadName 3
AT TTO1 p|BadName 3
AT QTY0 1|BadName 3
AT QTY5 5000|BadName 3
AT qty63 1|BadName 3
AT ALL p|BadName 3
AT MTA8 p|BadName 3
AT MTA07 p|BadName 3
DET|Missing
DETACH \t|Missing
DET CLK|BadName 4
DET  MTA8 X|BadName 5
DET QTY5|BadName 4
DET  qty0 X|BadName 5
DET -E PTR|BadName 4
DET 5|BadNumber 4
DET PTR PTP|Extra 8
DET ALL  X|Extra 9
DET TTI1 1|Extra 9
DET QTY 5|Extra 8";

#[test]
fn answers_the_first_fault_of_attach_and_detach(rt: HostRuntime) {
    all(&rt, ANSWERS_THE_FIRST_FAULT_OF_ATTACH_AND_DETACH);
    let mut command = Command::new();
    refused(&rt, &mut command, b"AT PTR a\xff", ParseFault::BadName(7));
    refused(
        &rt,
        &mut command,
        b"AT PTR  \xc3 \t",
        ParseFault::BadName(8),
    );
    refused(
        &rt,
        &mut command,
        b"AT -N DSK 1\x80 ",
        ParseFault::BadNumber(10),
    );
}

/// The place and the text of the name in an ATTACH.
fn named(command: &Command) -> Option<(Piece, &str)> {
    match &command.verb {
        Verb::Attach { name, .. } => Some((*name, command.file_name())),
        _ => None,
    }
}

/// The name of the file in an ATTACH stands at that place, and has these bytes.
fn names(rt: &impl Abort, command: &Command, place: Piece, bytes: &[u8]) {
    match named(command) {
        Some((at, name)) => {
            holds(rt, at == place && name.as_bytes() == bytes, "another name");
        }
        None => holds(rt, false, "no file is attached"),
    }
}

#[test]
fn names_of_files_have_255_bytes_at_most(rt: HostRuntime) {
    let mut line = [b'x'; 270];
    line[..7].copy_from_slice(b"AT PTR ");
    let mut command = Command::new();
    taken(&rt, &mut command, &line[..262]);
    names(&rt, &command, Piece { from: 7, to: 262 }, &line[7..262]);
    refused(&rt, &mut command, &line[..263], ParseFault::BadName(7));
    line[262] = b' ';
    line[263] = b'\t';
    taken(&rt, &mut command, &line[..264]);
    line[7] = b'1';
    refused(&rt, &mut command, &line[..265], ParseFault::BadNumber(7));
}
