// Texts that are put together before they are printed.
use crate::checked::holds;
use line_text::Text;

fn is_put_together() -> bool {
    let mut text = Text::<10>::new();
    text.push_all(b"AC0");
    text.push(b':');
    text.push_octal(0o17, 6);
    text.as_slice() == b"AC0:000017".as_slice()
}

#[test]
fn a_text_is_put_together(rt: HostRuntime) {
    holds(&rt, is_put_together(), "AC0:000017");
}

fn keeps_what_has_room(line: &mut Text<3>) -> bool {
    let empty = line.is_empty();
    for b in b"abcde" {
        line.keep(*b);
    }
    empty && line.is_full() && line.as_slice() == b"abc".as_slice()
}

fn is_cut(line: &mut Text<3>) -> bool {
    line.truncate(5);
    let all = line.len();
    line.truncate(2);
    let two = line.as_slice() == b"ab".as_slice();
    line.clear();
    all == 3 && two && line.is_empty()
}

#[test]
fn bytes_are_kept_while_there_is_room(rt: HostRuntime) {
    let mut line = Text::<3>::new();
    holds(&rt, keeps_what_has_room(&mut line), "abcde");
    holds(&rt, is_cut(&mut line), "abc");
}

fn is_written_first() -> bool {
    let mut text = Text::<4>::new();
    text.push_all(b"PC");
    let mut out = [b'-'; 4];
    let count = text.copy_to(&mut out);
    count == 2 && out.as_slice() == b"PC--".as_slice()
}

#[test]
fn a_text_is_written_first(rt: HostRuntime) {
    holds(&rt, is_written_first(), "PC--");
}
