// Products and quotients of the manual.
use crate::checked::holds;
use crate::processor::rows::{cut, octals, words};
use nova_alu::{Divided, divide, divide_in_place, multiply, multiply_in_place};
use nova_word::Word;

/// AC0 to AC3, and what MUL leaves in them.
const PRODUCTS: &str = "177777 177777 177777 10 | 177777 0 177777 10
5 0 177777 10 | 0 5 177777 10
1 400 400 10 | 1 1 400 10";

fn accumulators(column: &str) -> Option<[Word; 4]> {
    match octals::<4>(column) {
        Some(numbers) => Some(words(numbers)),
        None => None,
    }
}

fn multiplies_to(acs: [Word; 4], wanted: [Word; 4]) -> bool {
    let mut standing = acs;
    multiply_in_place(&mut standing);
    multiply(acs) == wanted && standing == wanted
}

fn is_product(line: &str) -> bool {
    let (given, wanted) = cut(line);
    match (accumulators(given), accumulators(wanted)) {
        (Some(acs), Some(wanted)) => multiplies_to(acs, wanted),
        _ => false,
    }
}

#[test]
fn products_of_the_manual(rt: HostRuntime) {
    for line in PRODUCTS.lines() {
        holds(&rt, is_product(line), line);
    }
}

/// AC0 to AC3, what DIV leaves in them, and Carry after it.
const QUOTIENTS: &str = "5 3 5 10 | 5 3 5 10 1
1 0 2 10 | 0 100000 2 10 0
0 21 5 10 | 2 3 5 10 0
0 21 0 10 | 0 21 0 10 1
177776 177777 177777 10 | 177776 177777 177777 10 0";

fn left(column: &str) -> Option<Divided> {
    match octals::<5>(column) {
        Some(row) => {
            let [ac0, ac1, ac2, ac3, carry] = row;
            Some(Divided {
                acs: words([ac0, ac1, ac2, ac3]),
                carry: carry == 1,
            })
        }
        None => None,
    }
}

fn divides_to(acs: [Word; 4], wanted: &Divided) -> bool {
    let mut standing = acs;
    let mut carry = !wanted.carry;
    divide_in_place(&mut standing, &mut carry);
    divide(acs) == *wanted && standing == wanted.acs && carry == wanted.carry
}

fn is_quotient(line: &str) -> bool {
    let (given, wanted) = cut(line);
    match (accumulators(given), left(wanted)) {
        (Some(acs), Some(wanted)) => divides_to(acs, &wanted),
        _ => false,
    }
}

#[test]
fn quotients_of_the_manual(rt: HostRuntime) {
    for line in QUOTIENTS.lines() {
        holds(&rt, is_quotient(line), line);
    }
}
