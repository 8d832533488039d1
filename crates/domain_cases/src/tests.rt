// Each test is about one domain; what a line says is what a user would expect of it.
use domain::{Domain, Truth, spanned};
use interval::Interval;
use list::NumberList;
use numbers::Int;

fn from_to(low: Int, high: Int) -> Interval {
    Interval { low, high }
}

fn only(numbers: &[Int]) -> NumberList {
    spanned(numbers)
}

fn everything() -> NumberList {
    NumberList::span(Int::MIN, Int::MAX)
}

#[test]
fn intervals(rt: HostRuntime) {
    let nothing = from_to(1, 0);
    assert_eq!(rt;
        from_to(1, 3).mul(from_to(20000, 20000)),
        from_to(20000, 32767)
    );
    assert!(rt; from_to(1, 3).mul_overflows(from_to(20000, 20000)));
    assert!(rt; !from_to(1, 1).mul_overflows(from_to(20000, 20000)));
    assert_eq!(rt;
        from_to(-32768, -32768).div(from_to(-1, 1)),
        from_to(-32768, 32767)
    );
    assert_eq!(rt; from_to(96, 96).div(from_to(1, 12)), from_to(8, 96));
    assert_eq!(rt; from_to(-7, -7).div(from_to(2, 2)), from_to(-3, -3));
    assert_eq!(rt; from_to(5, 9).div(from_to(0, 0)), nothing);
    assert_eq!(rt; from_to(32767, 32767).add(from_to(1, 2)), nothing);
    assert_eq!(rt; from_to(0, 5).join(from_to(9, 9)), from_to(0, 9));
    assert_eq!(rt; from_to(0, 5).widen(from_to(0, 6)), from_to(0, 32767));
    assert_eq!(rt; from_to(0, 5).widen(from_to(-1, 5)), from_to(-32768, 5));
    assert_eq!(rt; nothing.widen(from_to(3, 4)), from_to(3, 4));
    assert_eq!(rt;
        from_to(1, 4).less(from_to(4, 4)),
        Truth {
            can_be_true: true,
            can_be_false: true,
        }
    );
    assert_eq!(rt;
        from_to(4, 4).equal(from_to(4, 4)),
        Truth {
            can_be_true: true,
            can_be_false: false,
        }
    );
    let joined: Interval = spanned(&[3, -2, 7]);
    assert_eq!(rt; joined, from_to(-2, 7));
}

#[test]
fn intervals_out_of_form(rt: HostRuntime) {
    let broken = from_to(5, 2);
    assert!(rt; broken.is_empty() && !broken.contains(3) && broken.within(from_to(9, 9)));
    assert_eq!(rt; broken.add(from_to(1, 1)), from_to(1, 0));
    assert!(rt; !broken.sub_overflows(from_to(-32768, 32767)));
    assert_eq!(rt;
        broken.equal(from_to(3, 3)),
        Truth {
            can_be_true: false,
            can_be_false: false,
        }
    );
    assert_eq!(rt; broken.join(from_to(1, 2)), from_to(1, 2));
    assert_eq!(rt; broken.widen(from_to(1, 2)), from_to(1, 2));
}

#[test]
fn lists(rt: HostRuntime) {
    let none = only(&[]);
    assert_eq!(rt; only(&[1, 3]).join(only(&[5, 3])), only(&[1, 3, 5]));
    assert_eq!(rt;
        only(&[-32768]).div(NumberList::span(-1, 1)),
        only(&[-32768])
    );
    assert_eq!(rt; everything().div(only(&[0])), everything());
    assert_eq!(rt; everything().mul(none), none);
    assert!(rt; everything().add_overflows(only(&[0])) && !everything().add_overflows(none));
    assert_eq!(rt;
        none.less(everything()),
        Truth {
            can_be_true: false,
            can_be_false: false,
        }
    );
    assert!(rt;
        NumberList::span(1, 8).within(NumberList::span(1, 8)) && !NumberList::span(1, 8).contains(9)
    );
    assert_eq!(rt; NumberList::span(1, 9), everything());
    assert_eq!(rt; only(&[1, 2, 3]).mul(only(&[20000])), only(&[20000]));
    assert_eq!(rt; only(&[1, 3]).widen(only(&[1, 3, 4])), everything());
    assert_eq!(rt; none.widen(only(&[4, 7])), only(&[4, 7]));
    assert_eq!(rt; only(&[1, 3]).widen(only(&[3])), only(&[3]));
}

#[test]
fn lists_out_of_form(rt: HostRuntime) {
    let falling = NumberList::Numbers {
        count: 2,
        numbers: [5, 2, 0, 0, 0, 0, 0, 0],
    };
    let long = NumberList::Numbers {
        count: 9,
        numbers: [1, 2, 3, 4, 5, 6, 7, 8],
    };
    assert!(rt; falling.is_empty() && !falling.contains(5) && long.is_empty() && !long.contains(1));
    assert_eq!(rt; long.join(only(&[4])), only(&[4]));
    assert_eq!(rt; falling.add(everything()), only(&[]));
}
