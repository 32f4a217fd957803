//! Reports: each reply, each cause, and the highest numbers.

use crate::rows::assert_row;
use farm_report::{CallLine, Report, SpanLine, write_report};
use std::alloc::{AllocError, Global};
use std::process::Abort;
use switchboard::{Act, Refusal, Reply, Span};
use trau_alaw::Law;
use trau_io::{CallEnd, Cause, Counts, Line, Side};

const LAST: u32 = u32::MAX;

const NO_COUNTS: Counts = Counts {
    good: 0,
    sid: 0,
    invalid: 0,
    bad: 0,
    idle: 0,
    other: 0,
    miss: 0,
    none: 0,
    made: 0,
};

const MOST_COUNTS: Counts = Counts {
    good: u64::MAX,
    sid: u64::MAX,
    invalid: u64::MAX,
    bad: u64::MAX,
    idle: u64::MAX,
    other: u64::MAX,
    miss: u64::MAX,
    none: u64::MAX,
    made: u64::MAX,
};

static EACH_REPLY: [Reply; 9] = [
    Reply {
        order: 1,
        result: Ok(Act::Opened {
            call: 1,
            law: Law::A,
        }),
    },
    Reply {
        order: 4,
        result: Err(Refusal::AlreadyOpen { call: 1 }),
    },
    Reply {
        order: 5,
        result: Err(Refusal::SameCall { call: 1 }),
    },
    Reply {
        order: 6,
        result: Ok(Act::Bridged { a: 1, b: 2 }),
    },
    Reply {
        order: 7,
        result: Err(Refusal::Bridged {
            call: 2,
            partner: 1,
        }),
    },
    Reply {
        order: 8,
        result: Err(Refusal::NotBridged { call: 3 }),
    },
    Reply {
        order: 10,
        result: Err(Refusal::Draining {
            call: 1,
            partner: 2,
        }),
    },
    Reply {
        order: 12,
        result: Err(Refusal::NumberUsed { call: 3 }),
    },
    Reply {
        order: 13,
        result: Err(Refusal::NotOpen { call: 9 }),
    },
];

static EACH_CAUSE: [CallLine; 6] = [
    CallLine {
        end: CallEnd {
            call: 1,
            at: 5,
            cause: Cause::Closed,
        },
        from: 0,
        counts: NO_COUNTS,
    },
    CallLine {
        end: CallEnd {
            call: 2,
            at: 30,
            cause: Cause::End {
                side: Side::Up,
                left: 13,
            },
        },
        from: 0,
        counts: NO_COUNTS,
    },
    CallLine {
        end: CallEnd {
            call: 3,
            at: 29,
            cause: Cause::End {
                side: Side::Pcm,
                left: 0,
            },
        },
        from: 4,
        counts: NO_COUNTS,
    },
    CallLine {
        end: CallEnd {
            call: 4,
            at: 2,
            cause: Cause::Fault { side: Side::Up },
        },
        from: 0,
        counts: NO_COUNTS,
    },
    CallLine {
        end: CallEnd {
            call: 7,
            at: 2,
            cause: Cause::Fault { side: Side::Pcm },
        },
        from: 0,
        counts: NO_COUNTS,
    },
    CallLine {
        end: CallEnd {
            call: 9,
            at: 3,
            cause: Cause::Limit,
        },
        from: 1,
        counts: NO_COUNTS,
    },
];

const EACH_SIDE: [Line; 4] = [
    Line {
        call: 4,
        side: Side::Up,
    },
    Line {
        call: 7,
        side: Side::Pcm,
    },
    Line {
        call: 9,
        side: Side::Down,
    },
    Line {
        call: 9,
        side: Side::Out,
    },
];

static EACH_TEXT: &str = "order 1 ok
order 4 refused 1 call 1
order 5 refused 5 call 1
order 6 ok
order 7 refused 3 call 2 partner 1
order 8 refused 4 call 3
order 10 refused 6 call 1 partner 2
order 12 refused 7 call 3
order 13 refused 2 call 9
call 1 from 0 to 5 closed
counts 1 good 0 sid 0 invalid 0 bad 0 idle 0 other 0 miss 0 none 0 made 0
call 2 from 0 to 30 end up 13
counts 2 good 0 sid 0 invalid 0 bad 0 idle 0 other 0 miss 0 none 0 made 0
call 3 from 4 to 29 end pcm 0
counts 3 good 0 sid 0 invalid 0 bad 0 idle 0 other 0 miss 0 none 0 made 0
call 4 from 0 to 2 fault up
counts 4 good 0 sid 0 invalid 0 bad 0 idle 0 other 0 miss 0 none 0 made 0
call 7 from 0 to 2 fault pcm
counts 7 good 0 sid 0 invalid 0 bad 0 idle 0 other 0 miss 0 none 0 made 0
call 9 from 1 to 3 limit
counts 9 good 0 sid 0 invalid 0 bad 0 idle 0 other 0 miss 0 none 0 made 0
line 4 up failed
line 7 pcm failed
line 9 down failed
line 9 out failed
end period 30 calls 6 left 1
";

static GREATEST_REPLY: [Reply; 1] = [Reply {
    order: LAST,
    result: Err(Refusal::Draining {
        call: LAST,
        partner: LAST,
    }),
}];

static GREATEST_SPAN: [SpanLine; 1] = [SpanLine {
    span: Span {
        a: LAST,
        b: LAST,
        from: LAST,
        to: LAST,
    },
    sent_a: LAST,
    sent_b: LAST,
    lost_a: LAST,
    lost_b: LAST,
}];

static GREATEST_CALL: [CallLine; 1] = [CallLine {
    end: CallEnd {
        call: LAST,
        at: LAST,
        cause: Cause::End {
            side: Side::Pcm,
            left: LAST,
        },
    },
    from: LAST,
    counts: MOST_COUNTS,
}];

const GREATEST_SIDE: [Line; 1] = [Line {
    call: 4096,
    side: Side::Out,
}];

static GREATEST_TEXT: &str = "order 4294967295 refused 6 call 4294967295 partner 4294967295
bridge 4294967295 4294967295 from 4294967295 to 4294967295 sent 4294967295 4294967295 lost 4294967295 4294967295
call 4294967295 from 4294967295 to 4294967295 end pcm 4294967295
counts 4294967295 good 18446744073709551615 sid 18446744073709551615 invalid 18446744073709551615 bad 18446744073709551615 idle 18446744073709551615 other 18446744073709551615 miss 18446744073709551615 none 18446744073709551615 made 18446744073709551615
line 4096 out failed
end period 4294967295 calls 1 left 4294967295
";

// The text of a report, without what is proved of it.
fn text_of(alloc: Global, report: &Report) -> Result<String, AllocError> {
    write_report(alloc, report)
}

// Whether this is the text of a report.
fn is_text(alloc: Global, report: &Report, text: &str) -> bool {
    match text_of(alloc, report) {
        Ok(written) => written.as_str() == text,
        Err(_) => false,
    }
}

// The report with these parts.
fn report_of(
    rt: &impl Abort,
    alloc: Global,
    replies: &[Reply],
    spans: &[SpanLine],
    calls: &[CallLine],
    failed: &[Line],
    left: u32,
) -> Report {
    Report {
        replies: replies.to_vec(alloc).expect(rt, "memory"),
        spans: spans.to_vec(alloc).expect(rt, "memory"),
        calls: calls.to_vec(alloc).expect(rt, "memory"),
        failed: failed.to_vec(alloc).expect(rt, "memory"),
        left,
    }
}

#[test]
fn each_reply_and_each_cause(rt: HostRuntime) {
    let report = report_of(
        &rt,
        rt.alloc(),
        &EACH_REPLY,
        &[],
        &EACH_CAUSE,
        &EACH_SIDE,
        1,
    );
    assert_row(&rt, 1, is_text(rt.alloc(), &report, EACH_TEXT));
}

#[test]
fn the_greatest_numbers(rt: HostRuntime) {
    let report = report_of(
        &rt,
        rt.alloc(),
        &GREATEST_REPLY,
        &GREATEST_SPAN,
        &GREATEST_CALL,
        &GREATEST_SIDE,
        LAST,
    );
    assert_row(&rt, 1, is_text(rt.alloc(), &report, GREATEST_TEXT));
}
