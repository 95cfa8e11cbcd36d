//! A script of a batch, which is shown in each of its states.
use crate::prints::{BEGUN, check_prints};
use std::test::Fail;

const HELD: (&str, &str) = (
    "do ACME O 1 pause
batch ACME O 1
do ACME O 1 hold
batch ACME O 1
do ACME O 1 done
batch ACME O 1
do ACME O 1 pause
do ACME O 1 restart
batch ACME O 1
",
    "accepted
O/1 pausing U1 open
 1 consumed ACME             M                       100              0
 1 produced ACME             P                        90              0
accepted
O/1 holding U1 open
 1 consumed ACME             M                       100              0
 1 produced ACME             P                        90              0
accepted
O/1 held U1 open
 1 consumed ACME             M                       100              0
 1 produced ACME             P                        90              0
refused 23 BadState
accepted
O/1 restarting U1 open
 1 consumed ACME             M                       100              0
 1 produced ACME             P                        90              0
",
);

const STOPPED: (&str, &str) = (
    "do ACME O 1 stop
batch ACME O 1
do ACME O 1 done
batch ACME O 1
do ACME O 1 reset
batch ACME O 1
actual K9 ACME O 1 1 consumed M ACME A S1 1 11
do ACME O 1 start
batch ACME O 1
",
    "accepted
O/1 stopping U1 open
 1 consumed ACME             M                       100              0
 1 produced ACME             P                        90              0
accepted
O/1 stopped U1 open
 1 consumed ACME             M                       100              0
 1 produced ACME             P                        90              0
accepted
O/1 idle U1 open
 1 consumed ACME             M                       100              0
 1 produced ACME             P                        90              0
refused 25 BatchIdle
accepted
O/1 running U1 open
 1 consumed ACME             M                       100              0
 1 produced ACME             P                        90              0
",
);

const CLOSED: (&str, &str) = (
    "close ACME O 1
do ACME O 1 done
batch ACME O 1
close ACME O 1
close ACME O 1
open ACME O U1
do ACME O 2 start
do ACME O 1 run
batch ACME O 1
",
    "refused 23 BadState
accepted
O/1 complete U1 open
 1 consumed ACME             M                       100              0
 1 produced ACME             P                        90              0
accepted
refused 24 BatchClosed
refused 21 NoMoreBatches
refused 22 UnknownBatch
refused 1 BadName
O/1 complete U1 closed
 1 consumed ACME             M                       100              0
 1 produced ACME             P                        90              0
",
);

#[test]
fn a_batch_is_shown_in_each_state(rt: HostRuntime) -> Result<(), Fail> {
    check_prints(rt.alloc(), &[BEGUN, HELD, STOPPED, CLOSED])
}
