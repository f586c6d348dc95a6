// Arithmetic and logical instructions of the manual.
use crate::checked::holds;
use crate::processor::rows::{cut, octals, words};
use nova_alu::{Arith, arith};
use nova_word::Word;

/// The word, AC0 to AC3 and Carry; AC0 to AC3 and Carry after it, and whether it skips; and the instruction.
const ROWS: &str = "101400 177777 0 0 0 0 | 0 0 0 0 1 0 | INC 0,0 complements Carry at 177777 alone
101400 077777 0 0 0 1 | 100000 0 0 0 1 0 | INC 0,0
102520 123456 0 0 0 1 | 1 0 0 0 0 0 | SUBZL 0,0 gives 1
133123 0 040000 040001 0 0 | 0 040000 2 0 1 1 | ADDZL 1,2,SNC
114156 0 0 0 11 0 | 0 0 0 11 0 0 | COMOL# 0,3,SEZ
101053 7 0 0 0 0 | 7 0 0 0 0 1 | MOVO# 0,0,SNC: the skip looks at the shifted carry, and Carry stays
101224 1 0 0 0 1 | 0 0 0 0 1 1 | MOVZR 0,0,SZR: the skip comes after the shift
106020 5 5 0 0 1 | 5 177777 0 0 0 0 | ADCZ 0,1 at equal words
106020 5 6 0 0 1 | 5 0 0 0 1 0 | ADCZ 0,1 where ACD is greater by one
106420 5 5 0 0 0 | 5 0 0 0 1 0 | SUBZ 0,1 at equal words
106420 5 6 0 0 0 | 5 1 0 0 1 0 | SUBZ 0,1 where ACD is greater by one
124420 0 0 0 0 1 | 0 0 0 0 1 0 | NEGZ 1,1 complements Carry at 0 alone
124420 0 1 0 0 1 | 0 177777 0 0 0 0 | NEGZ 1,1
101300 012345 0 0 0 1 | 162424 0 0 0 1 0 | MOVS 0,0 keeps the carry
133467 0 177400 000777 0 0 | 0 177400 000400 0 1 1 | ANDC 1,2,SBN
154000 0 0 052525 1 1 | 0 0 052525 125252 1 0 | COM 2,3
101011 0 0 0 0 0 | 0 0 0 0 0 1 | MOV# 0,0,SKP";

/// What an instruction leaves of what it finds, by that column.
fn done(given: &str) -> Option<Arith> {
    match octals::<6>(given) {
        Some(row) => {
            let [word, ac0, ac1, ac2, ac3, carry] = row;
            Some(arith(Word(word), words([ac0, ac1, ac2, ac3]), carry == 1))
        }
        None => None,
    }
}

fn left(wanted: &str) -> Option<Arith> {
    match octals::<6>(wanted) {
        Some(row) => {
            let [ac0, ac1, ac2, ac3, carry, skip] = row;
            Some(Arith {
                acs: words([ac0, ac1, ac2, ac3]),
                carry: carry == 1,
                skip: skip == 1,
            })
        }
        None => None,
    }
}

fn leaves(line: &str) -> bool {
    let (given, rest) = cut(line);
    let (wanted, _instruction) = cut(rest);
    let result = done(given);
    result.is_some() && result == left(wanted)
}

#[test]
fn instructions_of_the_manual(rt: HostRuntime) {
    for line in ROWS.lines() {
        holds(&rt, leaves(line), line);
    }
}
