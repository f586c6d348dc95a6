// Turns of a machine with a console, worked out by hand.
use crate::machines::{Units, all};
use machine_laws::laws;
use std::test::Fail;

/// Any other register is as before, and the console takes no byte.
const BASE: &str = "has: | time: 0 | queue: | prints: | faults: 0";

const A_NEW_MACHINE_IS_ONE_THAT_WAS_RESET: &str =
    "put: PC=0 | has: [0]=0 [77777]=0 AC0=0 AC3=0 C=0 ION=0 HOLD=0 MASK=0 SR=0 STOP_DEV=0 CLK.BUSY=0 CLK.DONE=0 CLK.SEL=0 TTI.DONE=0 TTI.TIME=144 TTI.BUF=0 TTO.DONE=0 TTO.TIME=144 TTO.BUF=0 | queue: TTI=100
put: PC=0 | do: reset | has: [0]=0 [77777]=0 AC0=0 AC3=0 C=0 ION=0 HOLD=0 MASK=0 SR=0 STOP_DEV=0 CLK.BUSY=0 CLK.DONE=0 CLK.SEL=0 TTI.DONE=0 TTI.TIME=144 TTI.BUF=0 TTO.DONE=0 TTO.TIME=144 TTO.BUF=0 | queue: TTI=100";

const A_RESET_STOPS_ALL_WORK_AND_LEAVES_THE_PROGRAM: &str =
    "words: 60111 60114 | put: AC0=1 AC1=2 AC2=3 AC3=4 C=1 ION=1 MASK=123456 SR=54321 STOP_DEV=1 [300]=5 CLK.SEL=3 TTI.BUSY=1 TTI.DONE=1 TTI.TIME=62 TTI.BUF=101 TTO.TIME=106 TTO.BUF=102 | do: step=2:Stepped HOLD=1 TTO.DONE=1 reset | has: PC=102 ION=0 MASK=0 CLK.SEL=0 TTI.BUSY=0 TTI.DONE=0 | time: 2 | queue: TTI=50";

const MEMORY_REFERENCES_OF_THE_MANUAL: &str =
    "words: 777 | do: turn=Executed | has: PC=77 | time: 1 | queue: TTI=99
words: 5405 | put: AC3=300 | do: turn=Executed | has: AC3=101 PC=305 | time: 1 | queue: TTI=99
words: 22020 | put: [20]=177777 [0]=123 | do: turn=Executed | has: [20]=0 AC0=123 PC=101 | time: 1 | queue: TTI=99";

const ARITHMETIC_OF_THE_MANUAL: &str =
    "words: 133123 | put: AC1=40000 AC2=40001 | do: turn=Executed | has: AC2=2 C=1 PC=102 | time: 1 | queue: TTI=99
words: 73101 | put: AC0=1 AC2=2 C=1 | do: turn=Executed | has: AC0=0 AC1=100000 C=0 PC=101 | time: 1 | queue: TTI=99";

const AN_INSTRUCTION_ENDS_THE_HOLD_AND_A_STOP_KEEPS_IT: &str =
    "words: 401 | put: ION=1 HOLD=1 STOP_DEV=1 [200]=100200 | do: turn=Executed | has: HOLD=0 PC=101 | time: 1 | queue: TTI=99
words: 63077 | put: ION=1 HOLD=1 STOP_DEV=1 [200]=100200 | do: turn=Halt | has: HOLD=0 PC=101 | time: 1 | queue: TTI=99
words: 60177 | put: ION=1 HOLD=1 STOP_DEV=1 [200]=100200 | do: turn=Executed | has: PC=101 | time: 1 | queue: TTI=99
words: 2200 | put: ION=1 HOLD=1 STOP_DEV=1 [200]=100200 | do: turn=ChainLimit | queue: TTI=100
words: 60412 | put: ION=1 HOLD=1 STOP_DEV=1 [200]=100200 | do: turn=UnknownDevice | queue: TTI=100";

#[test]
fn an_instruction_ends_the_hold_and_a_stop_keeps_it(rt: HostRuntime) -> Result<(), Fail> {
    laws::turns_stop();
    all(
        &rt,
        rt.alloc(),
        Units::Console,
        BASE,
        AN_INSTRUCTION_ENDS_THE_HOLD_AND_A_STOP_KEEPS_IT,
    )
}

const DEVICE_1_ANSWERS_NOTHING_AND_IS_ALWAYS_THERE: &str =
    "words: 70401 | put: AC2=7 STOP_DEV=1 | do: turn=Executed | has: AC2=0 PC=101 | time: 1 | queue: TTI=99
words: 63501 | put: AC2=7 STOP_DEV=1 | do: turn=Executed | has: PC=102 | time: 1 | queue: TTI=99
words: 63301 | put: AC2=7 STOP_DEV=1 | do: turn=Executed | has: PC=101 | time: 1 | queue: TTI=99";

const A_CODE_WITHOUT_A_UNIT_ANSWERS_NOTHING_OR_STOPS: &str =
    "words: 60412 | put: AC0=5 HOLD=0 | do: turn=Executed | has: AC0=0 PC=101 | time: 1 | queue: TTI=99
words: 60412 | put: AC0=5 HOLD=1 STOP_DEV=1 | do: turn=UnknownDevice | queue: TTI=100
words: 63712 | put: AC0=5 HOLD=0 | do: turn=Executed | has: PC=102 | time: 1 | queue: TTI=99
words: 63712 | put: AC0=5 HOLD=1 STOP_DEV=1 | do: turn=UnknownDevice | queue: TTI=100";

const A_UNIT_IS_ASKED: &str =
    "words: 74610 | put: TTI.BUF=301 TTI.DONE=1 | do: turn=Executed | has: AC3=301 TTI.DONE=0 PC=101 | time: 1 | queue: TTI=99
words: 65011 | put: AC1=177501 | do: turn=Executed | has: TTO.BUF=101 PC=101 | time: 1 | queue: TTI=99
words: 63411 | put: TTO.BUSY=1 | do: turn=Executed | has: PC=102 | time: 1 | queue: TTI=99";

const AN_ACKNOWLEDGE_NAMES_THE_FIRST_THAT_ASKS: &str =
    "words: 61477 | put: AC0=77 MASK=0 CLK.DONE=0 TTI.DONE=1 TTO.DONE=1 | do: turn=Executed | has: AC0=10 PC=101 | time: 1 | queue: TTI=99
words: 61477 | put: AC0=77 MASK=2 CLK.DONE=0 TTI.DONE=1 TTO.DONE=1 | do: turn=Executed | has: AC0=11 PC=101 | time: 1 | queue: TTI=99
words: 61477 | put: AC0=77 MASK=0 CLK.DONE=1 TTI.DONE=1 TTO.DONE=1 | do: turn=Executed | has: AC0=14 PC=101 | time: 1 | queue: TTI=99";

const THE_WORDS_OF_DEVICE_77: &str =
    "words: 70477 | put: SR=54321 | do: turn=Executed | has: AC2=54321 PC=101 | time: 1 | queue: TTI=99
words: 66077 | put: AC1=20 | do: turn=Executed | has: MASK=20 PC=101 | time: 1 | queue: TTI=99
words: 63477 | put: ION=1 | do: turn=Executed | has: PC=102 | time: 1 | queue: TTI=99
words: 60177 | do: turn=Executed | has: ION=1 HOLD=1 PC=101 | time: 1 | queue: TTI=99
words: 63277 | put: ION=1 | do: turn=Halt | has: ION=0 PC=101 | time: 1 | queue: TTI=99";

const IORST_RESETS_ALL_DEVICES: &str =
    "words: 60114 60111 62677 | put: AC0=123456 ION=1 MASK=7 CLK.SEL=2 TTI.BUSY=1 TTI.DONE=1 TTI.TIME=62 TTI.BUF=101 TTO.BUF=102 | do: step=2:Stepped TTO.DONE=1 turn=Executed | has: PC=103 ION=0 MASK=0 CLK.SEL=0 TTI.BUSY=0 TTI.DONE=0 TTO.DONE=0 | time: 3 | queue: TTI=49";

#[test]
fn turns_do_what_the_tables_say(rt: HostRuntime) -> Result<(), Fail> {
    all(
        &rt,
        rt.alloc(),
        Units::Console,
        BASE,
        A_NEW_MACHINE_IS_ONE_THAT_WAS_RESET,
    )?;
    all(
        &rt,
        rt.alloc(),
        Units::Console,
        BASE,
        A_RESET_STOPS_ALL_WORK_AND_LEAVES_THE_PROGRAM,
    )?;
    all(
        &rt,
        rt.alloc(),
        Units::Console,
        BASE,
        MEMORY_REFERENCES_OF_THE_MANUAL,
    )?;
    all(
        &rt,
        rt.alloc(),
        Units::Console,
        BASE,
        ARITHMETIC_OF_THE_MANUAL,
    )?;
    all(
        &rt,
        rt.alloc(),
        Units::Console,
        BASE,
        DEVICE_1_ANSWERS_NOTHING_AND_IS_ALWAYS_THERE,
    )?;
    all(
        &rt,
        rt.alloc(),
        Units::Console,
        BASE,
        A_CODE_WITHOUT_A_UNIT_ANSWERS_NOTHING_OR_STOPS,
    )?;
    all(&rt, rt.alloc(), Units::Console, BASE, A_UNIT_IS_ASKED)?;
    all(
        &rt,
        rt.alloc(),
        Units::Console,
        BASE,
        AN_ACKNOWLEDGE_NAMES_THE_FIRST_THAT_ASKS,
    )?;
    all(
        &rt,
        rt.alloc(),
        Units::Console,
        BASE,
        THE_WORDS_OF_DEVICE_77,
    )?;
    all(
        &rt,
        rt.alloc(),
        Units::Console,
        BASE,
        IORST_RESETS_ALL_DEVICES,
    )?;
    Ok(())
}
