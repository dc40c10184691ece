use bcv_keeprule::{KeepRule, retention_passed};

/// The stamp, the present moment and the retention; whether the retention has passed.
const ASKED: [((u64, u64, u64), bool); 12] = [
    ((100, 100, 0), true),
    ((100, 99, 0), false),
    ((100, 109, 10), false),
    ((100, 110, 10), true),
    ((100, 111, 10), true),
    ((100, 50, 10), false),
    ((0, 0, 0), true),
    ((u64::MAX, u64::MAX, 0), true),
    ((u64::MAX, u64::MAX, 1), false),
    ((0, u64::MAX, u64::MAX), true),
    ((1, u64::MAX, u64::MAX), false),
    ((u64::MAX, 0, u64::MAX), false),
];

#[test]
fn each_rule_gives_its_own_answer(rt: HostRuntime) {
    let usual = KeepRule::new(retention_passed);
    let never = KeepRule::new(|_: u64, _: u64, _: u64| false);
    let grace = 10;
    let later = KeepRule::new(|stamp: u64, now: u64, retention: u64| {
        retention_passed(stamp, now, retention) && now - stamp - retention >= grace
    });

    for ((stamp, now, retention), passed) in ASKED {
        assert_eq!(rt;
            usual.releases(stamp, now, retention),
            passed,
            "stamp {stamp}, now {now}, retention {retention}"
        );
        assert!(rt; !never.releases(stamp, now, retention));
    }
    assert!(rt; !later.releases(100, 119, 10));
    assert!(rt; later.releases(100, 120, 10));
}
