use crate::checked::holds;
use crate::grammar::reading::all;
use crate::grammar::words::{device, item, number, rel};
use operand_forms::{Condition, Item, Listing, Test};
use scp_parser::Verb;
use std::process::Abort;

fn listing_of(verb: &Verb) -> Option<&Listing> {
    match verb {
        Verb::Examine(listing) => Some(listing),
        Verb::Deposit(listing, _) => Some(listing),
        _ => None,
    }
}

/// The list of an EXAMINE or a DEPOSIT: `-M` where it is symbolic, the device, and the items.
pub fn same_list(rt: &impl Abort, verb: &Verb, line: &str, wanted: &str) {
    match listing_of(verb) {
        Some(listing) => list_is(rt, listing, line, wanted),
        None => holds(rt, false, line),
    }
}

fn list_is(rt: &impl Abort, listing: &Listing, line: &str, wanted: &str) {
    match wanted.strip_prefix("-M ") {
        Some(others) => {
            holds(rt, listing.symbolic, line);
            places_are(rt, listing, line, others);
        }
        None => {
            holds(rt, !listing.symbolic, line);
            places_are(rt, listing, line, wanted);
        }
    }
}

fn places_are(rt: &impl Abort, listing: &Listing, line: &str, wanted: &str) {
    let (name, items) = wanted.split_once(' ').unwrap_or((wanted, ""));
    holds(rt, Some(listing.device) == device(name), line);
    same_items(rt, listing.items.as_slice(), line, items);
}

fn same_items(rt: &impl Abort, items: &[Item], line: &str, words: &str) {
    holds(rt, words.split_whitespace().count() == items.len(), line);
    for (held, word) in items.iter().zip(words.split_whitespace()) {
        holds(rt, Some(*held) == item(word), line);
    }
}

/// The condition of a list: the mask or -, the comparison, and the value; - alone is none.
pub fn same_condition(rt: &impl Abort, verb: &Verb, line: &str, wanted: &str) {
    match listing_of(verb) {
        Some(listing) => holds(rt, listing.condition == condition(wanted), line),
        None => holds(rt, false, line),
    }
}

fn condition(words: &str) -> Option<Condition> {
    let (mask, comparison) = words.split_once(' ')?;
    let (name, value) = comparison.split_once(' ')?;
    Some(Condition {
        mask: number(mask),
        rel: rel(name)?,
        value: number(value)?,
    })
}

/// What an ASSERT tests: the device, the item, the comparison, and the value.
pub fn same_test(rt: &impl Abort, verb: &Verb, line: &str, wanted: &str) {
    match verb {
        Verb::Assert(test) => holds(rt, Some(*test) == test_of(wanted), line),
        _ => holds(rt, false, line),
    }
}

fn test_of(words: &str) -> Option<Test> {
    let (name, others) = words.split_once(' ')?;
    let (place, comparison) = others.split_once(' ')?;
    let (relation, value) = comparison.split_once(' ')?;
    Some(Test {
        device: device(name)?,
        item: item(place)?,
        condition: Condition {
            mask: None,
            rel: rel(relation)?,
            value: number(value)?,
        },
    })
}

const READS_THE_ITEMS_OF_A_LIST: &str = "E 100|Items CPU At:0o100
E\t100\t|Items CPU At:0o100
E 37777777777|Items CPU At:4294967295
E 40000000000|Items CPU At:max
E 100-107|Items CPU Range:64-71
E 7-1|Items CPU Range:7-1
E 100/10|Items CPU Count:64/10
E 0/9,5|Items CPU Count:0/9 At:5
E all|Items CPU All
E STATE,ALL|Items CPU State All
E AC0,pc,Size|Items CPU Reg:0 Reg:5 Reg:11
E C,STOP_DEV|Items CPU Reg:4 Reg:10
E AC4,CPU,A_1|Items CPU Unknown Unknown Unknown
E -M 5|Items -M CPU At:5
e -m state|Items -M CPU State
E TTI BUSY,DONE,TIME,BUF|Items TTI Reg:0 Reg:1 Reg:2 Reg:3
E TTO busy,done,time,buf|Items TTO Reg:0 Reg:1 Reg:2 Reg:3
E TTI1 BUSY,DONE,TIME,BUF|Items TTI1 Reg:0 Reg:1 Reg:2 Reg:3
E tto1 BUSY,DONE,TIME,BUF|Items TTO1 Reg:0 Reg:1 Reg:2 Reg:3
E CLK BUSY,DONE,SEL|Items CLK Reg:0 Reg:1 Reg:2
E LPT BUSY,DONE,STOP_IOE,TIME,BUF,POS|Items LPT Reg:0 Reg:1 Reg:2 Reg:3 Reg:4 Reg:5
E PTR BUSY,DONE,STOP_IOE,TIME,BUF,POS|Items PTR Reg:0 Reg:1 Reg:2 Reg:3 Reg:4 Reg:5
E PTP BUSY,DONE,STOP_IOE,TIME,BUF,POS|Items PTP Reg:0 Reg:1 Reg:2 Reg:3 Reg:4 Reg:5
E DSK BUSY,DONE,STOP_IOE,TIME,DA,MA,STAT,WRITE|Items DSK Reg:0 Reg:1 Reg:2 Reg:3 Reg:4 Reg:5 Reg:6 Reg:7
E MTA BUSY,DONE,STOP_IOE,TIME,CMD,DRIVE,MA,WC,STAT,POS0,POS1,POS2,POS3,POS4,POS5,POS6|Items MTA Reg:0 Reg:1 Reg:2 Reg:3 Reg:4 Reg:5 Reg:6 Reg:7 Reg:8 Reg:9 Reg:10 Reg:11 Reg:12 Reg:13 Reg:14 Reg:15
E MTA POS7,POS8,POS,BUF|Items MTA Reg:16 Unknown Unknown Unknown
E TTO BUF|Items TTO Reg:3
E TTO SEL,POS,BU|Items TTO Unknown Unknown Unknown
E CLK TIME,BUF|Items CLK Unknown Unknown
D CLK SEL 2|Items CLK Reg:2
E -M tto1 PC,5|Items -M TTO1 Unknown At:5
E TTI TTO|Items TTI Unknown
D DSK DONE 1|Items DSK Reg:1
D -M 5,6 HALT|Items -M CPU At:5 At:6
E QTY BUSY,DONE,TIME|Items QTY Reg:0 Reg:1 Reg:2
E QTY RX0,RX5,RX9,RX10,RX63,TX0,TX5,TX63|Items QTY Reg:3 Reg:8 Reg:12 Reg:13 Reg:66 Reg:67 Reg:72 Reg:130
e qty state,rx8,Tx9|Items QTY State Reg:11 Reg:76
E QTY RX64,TX64,RX,TX,RX05,RX_5,BUF,SEL|Items QTY Unknown Unknown Unknown Unknown Unknown Unknown Unknown Unknown
E QTY 5,ALL|Items QTY At:5 All
D QTY TX3 501|Items QTY Reg:70
E QTY5|Items CPU Unknown
E QTY,QTY0,RX0,TX63|Items CPU Unknown Unknown Unknown Unknown
E TTI1 RX0|Items TTI1 Unknown
E 0,1,2,3,4,5,6,7,10,11,12,13,C,ALL,STATE,X|Items CPU At:0 At:1 At:2 At:3 At:4 At:5 At:6 At:7 At:8 At:9 At:10 At:11 Reg:4 All State Unknown";

const READS_CONDITIONS: &str = "E ALL|Where -
E =5 ALL|Where - Eq 5
E !=177777 ALL|Where - Ne 0o177777
E <0 ALL|Where - Lt 0
E <=10 ALL|Where - Le 8
E -M >7 ALL|Where - Gt 7
E >=40000000000 ALL|Where - Ge max
E &17=5 ALL|Where 0o17 Eq 5
E &0!=1 ALL|Where 0 Ne 1
E &1<2 ALL|Where 1 Lt 2
E &1<=2 ALL|Where 1 Le 2
E &1>2 ALL|Where 1 Gt 2
E &1>=2 ALL|Where 1 Ge 2
E &40000000000=1 ALL|Where max Eq 1
E TTI =5 ALL|Where - Eq 5";

#[test]
fn lists_are_read(rt: HostRuntime) {
    all(&rt, READS_THE_ITEMS_OF_A_LIST);
    all(&rt, READS_CONDITIONS);
}
