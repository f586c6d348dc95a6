// Fields that hold what they cannot hold, each alone, and the one fault of each.
use crate::checked::check;
use crate::states::pieces::fault_in_pieces;
use crate::states::texts::{
    BUSY, BUSY_DIGEST, BUSY1, BUSY1_DIGEST, FULL, FULL_DIGEST, both_of, equal, number,
};
use state_file::{StateFault, read_state};
use std::alloc::{AllocError, Global};
use std::process::Abort;
use std::test::Fail;

/// The fault of a text, as `none` for bytes that are no state, `version:2`, `field:45` or `short`.
fn fault_of(text: &str) -> StateFault {
    let (kind, rest) = text.split_once(':').unwrap_or((text, ""));
    match kind {
        "none" => StateFault::NotState,
        "version" => StateFault::Version(rest.parse().unwrap_or(0)),
        "field" => StateFault::BadField(number(rest)),
        _ => StateFault::Truncated,
    }
}

/// The fault of bytes, if they have one.
pub fn fault_in(alloc: Global, bytes: &[u8]) -> Option<StateFault> {
    match read_state(alloc, bytes) {
        Ok(_) => None,
        Err(fault) => Some(fault),
    }
}

/// The bytes have that fault.
pub fn is_refused(rt: &impl Abort, alloc: Global, bytes: &[u8], wanted: StateFault, line: &str) {
    equal(rt, &fault_in(alloc, bytes), &Some(wanted), line);
}

/// Puts the bytes of a text in the place of others.
fn put_at(bytes: &mut Vec<u8>, place: usize, new: &[u8]) {
    for (old, byte) in bytes.as_mut_slice().iter_mut().skip(place).zip(new.iter()) {
        *old = *byte;
    }
}

// What is wrong, the place and the bytes that are put there, and the fault: of the busy state, of the one with the
// multiplexer, and of the one in the first version.
const FIELDS: &str = "another first byte | 0=4D | none
another last byte of the first eight | 7=58 | none
version 0 | 8=0000 | version:0
version 3 | 8=0003 | version:3
version 256 | 8=0100 | version:256
3K | 10=03 | field:10
0K | 10=00 | field:10
36K | 10=24 | field:10
30K | 10=1E | field:10
Carry 2 | 19=02 | field:19
PC past memory | 20=8000 | field:20
ION 2 | 22=02 | field:22
HOLD 255 | 23=FF | field:23
STOP_DEV 2 | 28=02 | field:28
a flag of the auto-index rule that is 2 | 29=02 | field:29
a time past the last | 30=1000000000000001 | field:30
too many keys | 38=0000000000010001 | field:38
nine units | 8238=09 | field:8238
twelve units | 8238=0C | field:8238
a tape first | 8239=01 | field:8239
PTP twice | 8421=04 | field:8421
a register too few | 8240=07 | field:8240
a register too many | 8490=05 | field:8490
BUSY 2 | 8241=00000002 | field:8241
TIME 0 | 8253=00000000 | field:8253
TIME 65536 | 8445=00010000 | field:8445
DA past the last sector | 8257=00002000 | field:8257
POS7 past the last place | 8339=04000001 | field:8339
SEL 4 | 8431=00000004 | field:8431
the top bit of a register | 8503=80000000 | field:8503
82 events | 8507=0052 | field:8507
65535 events | 8507=FFFF | field:8507
an event of a unit that is not there | 8509=0A | field:8509
a second TTO | 8510=01 | field:8510
drive 8 | 8516=08 | field:8516
a drive twice | 8522=02 | field:8522
an event before the last one | 8517=00000002 | field:8517
a file of the clock | 8534=05 | field:8534
a file of a unit that is not there | 8534=0B | field:8534
a position that falls | 8684=00 | field:8684
a second disk | 8535=01 | field:8535
the disk twice | 8587=00 | field:8588
drive 9 | 8588=09 | field:8588
a drive out of order | 8634=00 | field:8634
read only 2 | 8536=02 | field:8536
a printer that is read only | 8686=01 | field:8686
no name | 8537=0000 | field:8537
a name of 256 bytes | 8537=0100 | field:8537
a name that is no text | 8542=FF | field:8539
a name that is cut within a character | 8639=2E | field:8638
a disk that is too long | 8547=0000000000400001 | field:8547
a tape that is too long | 8644=0000000004000001 | field:8644
a reader that is too long | 8743=0000000001000001 | field:8743
257 breaks | 8789=0101 | field:8789
a break past memory | 8791=8000 | field:8791
an address twice | 8799=0000 | field:8799
addresses out of order | 8812=0001 | field:8812
actions of 513 bytes | 8805=0201 | field:8805
actions of two lines | 8811=0A | field:8807
65 texts | 8831=41 | field:8831
a text that is waited for no more | 8832=00000000 | field:8832
an empty text | 8836=00 | field:8836
a text of 65 bytes | 8836=41 | field:8836
actions of a text that are two lines | 8856=0A | field:8856
65 printed bytes | 8864=41 | field:8864
4097 bytes to be sent | 8868=1001 | field:8868
a time before the last one | 8879=000000000000025B | field:8879
a time of sending past the last | 8888=4000000000000001 | field:8888
an event of QTY, which is not there | 8509=0A | field:8509
a port of QTY, which is not there | 8785=0001 | field:8785
the port of the console is that of TTI1 | 8787=0913 | field:8787";

const FULL_FIELDS: &str = "QTY at another place | 8507=09 | field:8507
a register of QTY too few | 8508=82 | field:8508
BUSY of QTY 2 | 8509=00000002 | field:8509
TIME of QTY 0 | 8517=00000000 | field:8517
RX0 past its largest | 8521=00000200 | field:8521
TX63 past its largest | 9029=00000400 | field:9029
line 64 of QTY | 9060=40 | field:9060
an event of the twelfth unit | 9059=0B | field:9059
a first port of QTY past the last | 9317=FFC1 | field:9317
the port of TTI1 is the first of QTY | 9315=1388 | field:9317
the port of TTI1 is the last of QTY | 9315=13C7 | field:9317
the port of the console is that of TTI1 | 9319=0913 | field:9319
the port of the console is the first of QTY | 9319=1388 | field:9319
the port of the console is the last of QTY | 9319=13C7 | field:9319";

const FIRST_VERSION_FIELDS: &str = "another first byte | 0=4D | none
another last byte of the first eight | 7=58 | none
version 0 | 8=0000 | version:0
version 256 | 8=0100 | version:256
3K | 10=03 | field:10
0K | 10=00 | field:10
36K | 10=24 | field:10
30K | 10=1E | field:10
Carry 2 | 19=02 | field:19
PC past memory | 20=8000 | field:20
ION 2 | 22=02 | field:22
HOLD 255 | 23=FF | field:23
STOP_DEV 2 | 28=02 | field:28
a time past the last | 29=1000000000000001 | field:29
too many keys | 37=0000000000010001 | field:37
nine units | 8237=09 | field:8237
eleven units | 8237=0B | field:8237
a tape first | 8238=01 | field:8238
PTP twice | 8420=04 | field:8420
a register too few | 8239=07 | field:8239
a register too many | 8489=05 | field:8489
BUSY 2 | 8240=00000002 | field:8240
TIME 0 | 8252=00000000 | field:8252
TIME 65536 | 8444=00010000 | field:8444
DA past the last sector | 8256=00002000 | field:8256
POS7 past the last place | 8338=04000001 | field:8338
SEL 4 | 8430=00000004 | field:8430
the top bit of a register | 8502=80000000 | field:8502
82 events | 8506=0052 | field:8506
65535 events | 8506=FFFF | field:8506
an event of a unit that is not there | 8508=0A | field:8508
a second TTO | 8509=01 | field:8509
drive 8 | 8515=08 | field:8515
a drive twice | 8521=02 | field:8521
an event before the last one | 8516=00000002 | field:8516
a file of the clock | 8533=05 | field:8533
a file of a unit that is not there | 8533=0B | field:8533
a position that falls | 8683=00 | field:8683
a second disk | 8534=01 | field:8534
the disk twice | 8586=00 | field:8587
drive 9 | 8587=09 | field:8587
a drive out of order | 8633=00 | field:8633
read only 2 | 8535=02 | field:8535
a printer that is read only | 8685=01 | field:8685
no name | 8536=0000 | field:8536
a name of 256 bytes | 8536=0100 | field:8536
a name that is no text | 8541=FF | field:8538
a name that is cut within a character | 8638=2E | field:8637
a disk that is too long | 8546=0000000000400001 | field:8546
a tape that is too long | 8643=0000000004000001 | field:8643
a reader that is too long | 8742=0000000001000001 | field:8742
257 breaks | 8784=0101 | field:8784
a break past memory | 8786=8000 | field:8786
an address twice | 8794=0000 | field:8794
addresses out of order | 8807=0001 | field:8807
actions of 513 bytes | 8800=0201 | field:8800
actions of two lines | 8806=0A | field:8802
65 texts | 8826=41 | field:8826
a text that is waited for no more | 8827=00000000 | field:8827
an empty text | 8831=00 | field:8831
a text of 65 bytes | 8831=41 | field:8831
actions of a text that are two lines | 8851=0A | field:8851
65 printed bytes | 8859=41 | field:8859
4097 bytes to be sent | 8863=1001 | field:8863
a time before the last one | 8874=000000000000025B | field:8874
a time of sending past the last | 8883=4000000000000001 | field:8883";

/// A state and its digest, as texts.
type Text<'a> = (&'a str, &'a str);

fn has_fault(rt: &impl Abort, alloc: Global, text: Text<'_>, line: &str) -> Result<(), AllocError> {
    let (_, rest) = line.split_once(" | ").unwrap_or((line, ""));
    let (change, wanted) = rest.split_once(" | ").unwrap_or((rest, ""));
    let (place, digits) = change.split_once('=').unwrap_or((change, ""));
    let mut bytes = both_of(alloc, text.0, text.1)?;
    let new = both_of(alloc, "", digits)?;
    put_at(&mut bytes, number(place), &new);
    has_the_fault(rt, alloc, &bytes, fault_of(wanted), line);
    Ok(())
}

fn has_the_fault(rt: &impl Abort, alloc: Global, bytes: &[u8], wanted: StateFault, line: &str) {
    is_refused(rt, alloc, bytes, wanted, line);
    equal(rt, &fault_in_pieces(alloc, bytes, 7), &Some(wanted), line);
}

#[test]
fn each_field_has_its_fault_at_its_place(rt: HostRuntime) -> Result<(), Fail> {
    for line in FIELDS.split('\n') {
        has_fault(&rt, rt.alloc(), (BUSY, BUSY_DIGEST), line)?;
    }
    Ok(())
}

#[test]
fn so_has_each_of_the_multiplexer(rt: HostRuntime) -> Result<(), Fail> {
    for line in FULL_FIELDS.split('\n') {
        has_fault(&rt, rt.alloc(), (FULL, FULL_DIGEST), line)?;
    }
    Ok(())
}

#[test]
fn so_has_each_of_the_first_version(rt: HostRuntime) -> Result<(), Fail> {
    for line in FIRST_VERSION_FIELDS.split('\n') {
        has_fault(&rt, rt.alloc(), (BUSY1, BUSY1_DIGEST), line)?;
    }
    Ok(())
}

#[test]
fn the_bytes_without_a_change_have_none(rt: HostRuntime) -> Result<(), Fail> {
    let bytes = both_of(rt.alloc(), BUSY, BUSY_DIGEST)?;
    check(&rt, fault_in(rt.alloc(), &bytes).is_none(), "no change");
    Ok(())
}
