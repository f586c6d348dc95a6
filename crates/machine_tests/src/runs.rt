// Runs of a machine with a console, worked out by hand.
use crate::machines::{Units, all};
use machine_laws::laws;
use std::test::Fail;

/// Any other register is as before, and the console takes no byte.
const BASE: &str = "has: | time: 0 | queue: | prints: | faults: 0";

const AN_INTERRUPT_WAITS_ONE_INSTRUCTION: &str =
    "words: 60177 101000 101000 | put: [1]=200 [200]=63077 TTO.DONE=1 | do: step=1:Stepped | has: PC=101 ION=1 HOLD=1 | time: 1 | queue: TTI=99
words: 60177 101000 101000 | put: [1]=200 [200]=63077 TTO.DONE=1 | do: step=1:Stepped step=1:Stepped | has: PC=102 ION=1 [0]=0 | time: 2 | queue: TTI=98
words: 60177 101000 101000 | put: [1]=200 [200]=63077 TTO.DONE=1 | do: step=1:Stepped step=1:Stepped step=1:Halt | has: PC=201 ION=0 [0]=102 | time: 3 | queue: TTI=97
words: 60177 101000 101000 | put: [1]=200 [200]=63077 TTO.DONE=1 | do: step=9:Halt | has: PC=201 ION=0 [0]=102 | time: 3 | queue: TTI=97";

const AN_INTERRUPT_IS_ENTERED_WHERE_A_UNIT_ASKS: &str =
    "words: 101400 76077 101400 63077 | put: ION=1 [1]=200 [200]=63077 TTO.DONE=1 | do: step=9:Halt | has: ION=0 [0]=100 PC=201 | time: 1 | queue: TTI=99
words: 101400 76077 101400 63077 | put: ION=1 [1]=200 [200]=63077 CLK.DONE=1 MASK=4 | do: step=1:Stepped | has: AC0=1 [0]=0 PC=101 | time: 1 | queue: TTI=99
words: 101400 76077 101400 63077 | put: ION=1 [1]=200 [200]=63077 | do: step=1:Stepped TTO.DONE=1 step=9:Halt | has: AC0=1 ION=0 TTO.DONE=1 [0]=101 PC=201 | time: 2 | queue: TTI=98
words: 101400 76077 101400 63077 | put: ION=1 [1]=100001 [200]=63077 TTO.DONE=1 | do: step=9:ChainLimit | has: ION=0 [0]=100 | queue: TTI=100";

const A_RUN_ENDS_AT_ITS_COUNT: &str = "words: 400 | do: step=0:Stepped | queue: TTI=100
words: 400 | do: run=0:Limit | queue: TTI=100
words: 400 | do: step=1:Stepped | time: 1 | queue: TTI=99
words: 400 | do: run=1:Limit | time: 1 | queue: TTI=99
words: 400 | do: step=5:Stepped | time: 5 | queue: TTI=95
words: 400 | do: run=5:Limit | time: 5 | queue: TTI=95";

const A_RUN_ENDS_AT_A_STOP: &str =
    "words: 101400 63077 0 | put: AC0=177777 AC1=3 AC2=4 HOLD=1 STOP_DEV=1 | do: step=2:Halt | has: AC0=0 AC1=3 C=1 HOLD=0 PC=102 | time: 2 | queue: TTI=98
words: 101400 63077 0 | put: AC0=177777 AC1=3 AC2=4 HOLD=1 STOP_DEV=1 | do: step=1:Stepped | has: AC0=0 AC1=3 C=1 HOLD=0 PC=101 | time: 1 | queue: TTI=99
words: 101400 60412 0 | put: AC0=177777 AC1=3 AC2=4 HOLD=1 STOP_DEV=1 | do: step=9:UnknownDevice | has: AC0=0 AC1=3 C=1 HOLD=0 PC=101 | time: 1 | queue: TTI=99
words: 101400 2102 100102 | put: AC0=177777 AC1=3 AC2=4 HOLD=1 STOP_DEV=1 | do: step=9:ChainLimit | has: AC0=0 AC1=3 C=1 HOLD=0 PC=101 | time: 1 | queue: TTI=99
words: 101400 73301 63077 | put: AC0=177777 AC1=3 AC2=4 HOLD=1 STOP_DEV=1 | do: step=9:Halt | has: AC0=0 AC1=14 C=1 HOLD=0 PC=103 | time: 3 | queue: TTI=97";

const A_RUN_MAY_BE_SPLIT: &str =
    "words: 101400 10020 776 | do: step=0:Stepped run=7:Limit | has: AC0=3 [20]=2 PC=101 | time: 7 | queue: TTI=93
words: 101400 10020 776 | do: step=1:Stepped run=6:Limit | has: AC0=3 [20]=2 PC=101 | time: 7 | queue: TTI=93
words: 101400 10020 776 | do: step=2:Stepped run=5:Limit | has: AC0=3 [20]=2 PC=101 | time: 7 | queue: TTI=93
words: 101400 10020 776 | do: step=3:Stepped run=4:Limit | has: AC0=3 [20]=2 PC=101 | time: 7 | queue: TTI=93
words: 101400 10020 776 | do: step=4:Stepped run=3:Limit | has: AC0=3 [20]=2 PC=101 | time: 7 | queue: TTI=93
words: 101400 10020 776 | do: step=5:Stepped run=2:Limit | has: AC0=3 [20]=2 PC=101 | time: 7 | queue: TTI=93
words: 101400 10020 776 | do: step=6:Stepped run=1:Limit | has: AC0=3 [20]=2 PC=101 | time: 7 | queue: TTI=93
words: 101400 10020 776 | do: step=7:Stepped run=0:Limit | has: AC0=3 [20]=2 PC=101 | time: 7 | queue: TTI=93";

#[test]
fn a_run_may_be_split(rt: HostRuntime) -> Result<(), Fail> {
    laws::runs_split();
    laws::runs_take_time();
    all(&rt, rt.alloc(), Units::Console, BASE, A_RUN_MAY_BE_SPLIT)
}

const A_BYTE_IS_PRINTED_OR_REFUSED_AND_A_CLOCK_TICKS: &str =
    "words: 61111 63611 777 63077 | put: AC0=101 | do: step=2000:Halt | has: PC=104 TTO.DONE=1 TTO.BUF=101 | time: 103 | queue: TTI=97 | room: 1 | prints: A
words: 61111 63611 777 63077 | put: AC0=301 | do: step=2000:Halt | has: PC=104 TTO.DONE=1 TTO.BUF=301 | time: 103 | queue: TTI=97 | room: 9 | prints: A
words: 61111 63611 777 63077 | put: AC0=101 | do: step=2000:ConsoleFault | has: PC=102 TTO.BUSY=1 TTO.BUF=101 | time: 100 | queue: TTI=100 | faults: 1
words: 61114 63614 777 63077 | put: AC0=3 | do: step=2000:Halt | has: PC=104 CLK.DONE=1 CLK.SEL=3 | time: 1003 | queue: TTI=97
words: 61111 400 | put: AC0=101 ION=1 [1]=200 [200]=63077 | do: step=2000:Halt | has: ION=0 [0]=101 PC=201 TTO.DONE=1 TTO.BUF=101 | time: 101 | queue: TTI=99 | room: 1 | prints: A";

const EVENTS_THAT_ARE_DUE_AT_ONCE_ARE_SERVED_IN_ONE_TURN: &str =
    "words: 60114 60111 400 | put: CLK.SEL=3 TTO.TIME=1747 TTO.BUF=101 | do: step=1001:Stepped | has: PC=102 CLK.DONE=1 TTO.DONE=1 | time: 1001 | queue: TTI=99 | room: 1 | prints: A
words: 60114 60111 400 | put: CLK.SEL=3 TTO.TIME=1747 TTO.BUF=101 | do: step=1001:ConsoleFault | has: PC=102 CLK.DONE=1 TTO.BUSY=1 | time: 1000 | queue: TTI=0 | faults: 1
words: 60114 60111 400 | put: CLK.SEL=3 TTO.TIME=1747 TTO.BUF=101 | do: step=1001:ConsoleFault step=1:Stepped | has: PC=102 CLK.DONE=1 TTO.BUSY=1 | time: 1001 | queue: TTI=99 | faults: 1
words: 60111 60114 400 | put: CLK.SEL=3 TTO.TIME=1747 TTO.BUF=101 | do: TTO.TIME=1751 step=2000:ConsoleFault | has: PC=102 CLK.BUSY=1 TTO.BUSY=1 TTO.TIME=1751 | time: 1001 | queue: CLK=0 TTI=99 | faults: 1";

#[test]
fn events_that_are_due_at_once_are_served_in_one_turn(rt: HostRuntime) -> Result<(), Fail> {
    laws::units_are_served_while_due();
    all(
        &rt,
        rt.alloc(),
        Units::Console,
        BASE,
        EVENTS_THAT_ARE_DUE_AT_ONCE_ARE_SERVED_IN_ONE_TURN,
    )
}

const A_UNIT_HAS_ONE_EVENT_AND_A_KEYBOARD_HAS_IT_ALWAYS: &str =
    "words: 60111 60111 | do: step=2:Stepped | has: PC=102 TTO.BUSY=1 | time: 2 | queue: TTI=98 TTO=98
words: 60111 60211 | do: step=2:Stepped | has: PC=102 | time: 2 | queue: TTI=98
words: 60111 60211 60111 | do: step=3:Stepped | has: PC=103 TTO.BUSY=1 | time: 3 | queue: TTI=97 TTO=99
words: 60110 60210 | put: TTI.DONE=1 | do: step=2:Stepped | has: PC=102 TTI.DONE=0 | time: 2 | queue: TTI=98
words: 400 | put: TTI.TIME=7 | do: step=7101:Stepped | time: 7101 | queue: TTI=6
words: 400 | do: step=50:Stepped TTI.TIME=36 step=51:Stepped | has: TTI.TIME=36 | time: 101 | queue: TTI=29";

#[test]
fn runs_stop_where_they_must(rt: HostRuntime) -> Result<(), Fail> {
    all(
        &rt,
        rt.alloc(),
        Units::Console,
        BASE,
        AN_INTERRUPT_WAITS_ONE_INSTRUCTION,
    )?;
    all(
        &rt,
        rt.alloc(),
        Units::Console,
        BASE,
        AN_INTERRUPT_IS_ENTERED_WHERE_A_UNIT_ASKS,
    )?;
    all(
        &rt,
        rt.alloc(),
        Units::Console,
        BASE,
        A_RUN_ENDS_AT_ITS_COUNT,
    )?;
    all(&rt, rt.alloc(), Units::Console, BASE, A_RUN_ENDS_AT_A_STOP)?;
    all(
        &rt,
        rt.alloc(),
        Units::Console,
        BASE,
        A_BYTE_IS_PRINTED_OR_REFUSED_AND_A_CLOCK_TICKS,
    )?;
    all(
        &rt,
        rt.alloc(),
        Units::Console,
        BASE,
        A_UNIT_HAS_ONE_EVENT_AND_A_KEYBOARD_HAS_IT_ALWAYS,
    )?;
    Ok(())
}
