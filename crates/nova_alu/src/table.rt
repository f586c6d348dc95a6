// The table of the arithmetic and logical instructions.
ghost use Rattle.std.specs.Prelude.{◌≡◌, ◌^◌, ◌<◌};
ghost use Rattle.nova_word.specs.Bits.{bits};
ghost use Rattle.nova_alu.specs.Codes.{function_code, carry_code, shift_code};
ghost use Rattle.nova_alu.specs.Numbers.{number_of};

use crate::carries::CarryBase;
use crate::carries::CarryBase::{Carry, Complement, One, Zero};
use crate::functions::Function;
use crate::functions::Function::{Adc, Add, And, Com, Inc, Mov, Neg, Sub};
use crate::shifts::Shift;
use crate::shifts::Shift::{Left, Right, Stay, Swap};
use nova_word::Word;

/// The 17 bits of carry and result after the shift, of the words of source and destination: by bits 5 to 11 of the
/// word, which are its function, its shift and its base carry. All three are decided by one choice, since a choice
/// costs more than what it leads to. What it calls is inlined by the compiler's own choice: where all of that is always
/// inlined, a function of so many choices is no longer inlined itself, and the loop that it serves would call it.
#[inline(always)]
pub(crate) fn number_of(word: Word, s: u16, d: u16, carry: bool) -> u32
    ensures value { result ≡ number_of word s d carry }
    ensures range { result < 2 ^ 17 }
{
    match (word.0 >> 4) % 128 {
        0o000 => number(word, Com, Carry, Stay, s, d, carry),
        0o001 => number(word, Com, Zero, Stay, s, d, carry),
        0o002 => number(word, Com, One, Stay, s, d, carry),
        0o003 => number(word, Com, Complement, Stay, s, d, carry),
        0o004 => number(word, Com, Carry, Left, s, d, carry),
        0o005 => number(word, Com, Zero, Left, s, d, carry),
        0o006 => number(word, Com, One, Left, s, d, carry),
        0o007 => number(word, Com, Complement, Left, s, d, carry),
        0o010 => number(word, Com, Carry, Right, s, d, carry),
        0o011 => number(word, Com, Zero, Right, s, d, carry),
        0o012 => number(word, Com, One, Right, s, d, carry),
        0o013 => number(word, Com, Complement, Right, s, d, carry),
        0o014 => number(word, Com, Carry, Swap, s, d, carry),
        0o015 => number(word, Com, Zero, Swap, s, d, carry),
        0o016 => number(word, Com, One, Swap, s, d, carry),
        0o017 => number(word, Com, Complement, Swap, s, d, carry),
        0o020 => number(word, Neg, Carry, Stay, s, d, carry),
        0o021 => number(word, Neg, Zero, Stay, s, d, carry),
        0o022 => number(word, Neg, One, Stay, s, d, carry),
        0o023 => number(word, Neg, Complement, Stay, s, d, carry),
        0o024 => number(word, Neg, Carry, Left, s, d, carry),
        0o025 => number(word, Neg, Zero, Left, s, d, carry),
        0o026 => number(word, Neg, One, Left, s, d, carry),
        0o027 => number(word, Neg, Complement, Left, s, d, carry),
        0o030 => number(word, Neg, Carry, Right, s, d, carry),
        0o031 => number(word, Neg, Zero, Right, s, d, carry),
        0o032 => number(word, Neg, One, Right, s, d, carry),
        0o033 => number(word, Neg, Complement, Right, s, d, carry),
        0o034 => number(word, Neg, Carry, Swap, s, d, carry),
        0o035 => number(word, Neg, Zero, Swap, s, d, carry),
        0o036 => number(word, Neg, One, Swap, s, d, carry),
        0o037 => number(word, Neg, Complement, Swap, s, d, carry),
        0o040 => number(word, Mov, Carry, Stay, s, d, carry),
        0o041 => number(word, Mov, Zero, Stay, s, d, carry),
        0o042 => number(word, Mov, One, Stay, s, d, carry),
        0o043 => number(word, Mov, Complement, Stay, s, d, carry),
        0o044 => number(word, Mov, Carry, Left, s, d, carry),
        0o045 => number(word, Mov, Zero, Left, s, d, carry),
        0o046 => number(word, Mov, One, Left, s, d, carry),
        0o047 => number(word, Mov, Complement, Left, s, d, carry),
        0o050 => number(word, Mov, Carry, Right, s, d, carry),
        0o051 => number(word, Mov, Zero, Right, s, d, carry),
        0o052 => number(word, Mov, One, Right, s, d, carry),
        0o053 => number(word, Mov, Complement, Right, s, d, carry),
        0o054 => number(word, Mov, Carry, Swap, s, d, carry),
        0o055 => number(word, Mov, Zero, Swap, s, d, carry),
        0o056 => number(word, Mov, One, Swap, s, d, carry),
        0o057 => number(word, Mov, Complement, Swap, s, d, carry),
        0o060 => number(word, Inc, Carry, Stay, s, d, carry),
        0o061 => number(word, Inc, Zero, Stay, s, d, carry),
        0o062 => number(word, Inc, One, Stay, s, d, carry),
        0o063 => number(word, Inc, Complement, Stay, s, d, carry),
        0o064 => number(word, Inc, Carry, Left, s, d, carry),
        0o065 => number(word, Inc, Zero, Left, s, d, carry),
        0o066 => number(word, Inc, One, Left, s, d, carry),
        0o067 => number(word, Inc, Complement, Left, s, d, carry),
        0o070 => number(word, Inc, Carry, Right, s, d, carry),
        0o071 => number(word, Inc, Zero, Right, s, d, carry),
        0o072 => number(word, Inc, One, Right, s, d, carry),
        0o073 => number(word, Inc, Complement, Right, s, d, carry),
        0o074 => number(word, Inc, Carry, Swap, s, d, carry),
        0o075 => number(word, Inc, Zero, Swap, s, d, carry),
        0o076 => number(word, Inc, One, Swap, s, d, carry),
        0o077 => number(word, Inc, Complement, Swap, s, d, carry),
        0o100 => number(word, Adc, Carry, Stay, s, d, carry),
        0o101 => number(word, Adc, Zero, Stay, s, d, carry),
        0o102 => number(word, Adc, One, Stay, s, d, carry),
        0o103 => number(word, Adc, Complement, Stay, s, d, carry),
        0o104 => number(word, Adc, Carry, Left, s, d, carry),
        0o105 => number(word, Adc, Zero, Left, s, d, carry),
        0o106 => number(word, Adc, One, Left, s, d, carry),
        0o107 => number(word, Adc, Complement, Left, s, d, carry),
        0o110 => number(word, Adc, Carry, Right, s, d, carry),
        0o111 => number(word, Adc, Zero, Right, s, d, carry),
        0o112 => number(word, Adc, One, Right, s, d, carry),
        0o113 => number(word, Adc, Complement, Right, s, d, carry),
        0o114 => number(word, Adc, Carry, Swap, s, d, carry),
        0o115 => number(word, Adc, Zero, Swap, s, d, carry),
        0o116 => number(word, Adc, One, Swap, s, d, carry),
        0o117 => number(word, Adc, Complement, Swap, s, d, carry),
        0o120 => number(word, Sub, Carry, Stay, s, d, carry),
        0o121 => number(word, Sub, Zero, Stay, s, d, carry),
        0o122 => number(word, Sub, One, Stay, s, d, carry),
        0o123 => number(word, Sub, Complement, Stay, s, d, carry),
        0o124 => number(word, Sub, Carry, Left, s, d, carry),
        0o125 => number(word, Sub, Zero, Left, s, d, carry),
        0o126 => number(word, Sub, One, Left, s, d, carry),
        0o127 => number(word, Sub, Complement, Left, s, d, carry),
        0o130 => number(word, Sub, Carry, Right, s, d, carry),
        0o131 => number(word, Sub, Zero, Right, s, d, carry),
        0o132 => number(word, Sub, One, Right, s, d, carry),
        0o133 => number(word, Sub, Complement, Right, s, d, carry),
        0o134 => number(word, Sub, Carry, Swap, s, d, carry),
        0o135 => number(word, Sub, Zero, Swap, s, d, carry),
        0o136 => number(word, Sub, One, Swap, s, d, carry),
        0o137 => number(word, Sub, Complement, Swap, s, d, carry),
        0o140 => number(word, Add, Carry, Stay, s, d, carry),
        0o141 => number(word, Add, Zero, Stay, s, d, carry),
        0o142 => number(word, Add, One, Stay, s, d, carry),
        0o143 => number(word, Add, Complement, Stay, s, d, carry),
        0o144 => number(word, Add, Carry, Left, s, d, carry),
        0o145 => number(word, Add, Zero, Left, s, d, carry),
        0o146 => number(word, Add, One, Left, s, d, carry),
        0o147 => number(word, Add, Complement, Left, s, d, carry),
        0o150 => number(word, Add, Carry, Right, s, d, carry),
        0o151 => number(word, Add, Zero, Right, s, d, carry),
        0o152 => number(word, Add, One, Right, s, d, carry),
        0o153 => number(word, Add, Complement, Right, s, d, carry),
        0o154 => number(word, Add, Carry, Swap, s, d, carry),
        0o155 => number(word, Add, Zero, Swap, s, d, carry),
        0o156 => number(word, Add, One, Swap, s, d, carry),
        0o157 => number(word, Add, Complement, Swap, s, d, carry),
        0o160 => number(word, And, Carry, Stay, s, d, carry),
        0o161 => number(word, And, Zero, Stay, s, d, carry),
        0o162 => number(word, And, One, Stay, s, d, carry),
        0o163 => number(word, And, Complement, Stay, s, d, carry),
        0o164 => number(word, And, Carry, Left, s, d, carry),
        0o165 => number(word, And, Zero, Left, s, d, carry),
        0o166 => number(word, And, One, Left, s, d, carry),
        0o167 => number(word, And, Complement, Left, s, d, carry),
        0o170 => number(word, And, Carry, Right, s, d, carry),
        0o171 => number(word, And, Zero, Right, s, d, carry),
        0o172 => number(word, And, One, Right, s, d, carry),
        0o173 => number(word, And, Complement, Right, s, d, carry),
        0o174 => number(word, And, Carry, Swap, s, d, carry),
        0o175 => number(word, And, Zero, Swap, s, d, carry),
        0o176 => number(word, And, One, Swap, s, d, carry),
        _ => number(word, And, Complement, Swap, s, d, carry),
    }
}

/// The 17 bits of a word with that function, base carry and shift.
#[inline]
pub(crate) fn number(
    _word: Word,
    function: Function,
    base: CarryBase,
    shift: Shift,
    s: u16,
    d: u16,
    carry: bool,
) -> u32
    requires function { function_code function ≡ bits 5 7 _word }
    requires base { carry_code base ≡ bits 10 11 _word }
    requires shift { shift_code shift ≡ bits 8 9 _word }
    ensures value { result ≡ number_of _word s d carry }
    ensures range { result < 2 ^ 17 }
{
    let sum = function.sum(s, d);
    let base = base.base(carry);
    shift.shift((u32::from(base) * 65536 + sum) % 131072)
}
