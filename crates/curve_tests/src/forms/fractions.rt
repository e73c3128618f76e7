//! Worked values. What no clause says is how a number is spelt, and that the definitions are the ones meant.

use fraction128::{Frac, FracFault, FracText, gcd_of, is_less, least_common_multiple};
use std::alloc::{AllocError, Global};
use std::process::Abort;
use std::test::Fail;

// The fraction of a text, or 0 where it is none.
fn fraction(text: &str) -> Frac {
    match Frac::parse(text.as_bytes()) {
        Ok(f) => f,
        Err(_) => Frac::zero(),
    }
}

// A fraction as it is spelt.
fn printed(alloc: Global, f: Frac) -> Result<Vec<u8>, AllocError> {
    let mut text = Vec::new(alloc);
    f.print(&mut text)?;
    Ok(text)
}

// Quotients as they are spelt: 0 as a denominator, and what is too big, are refused.
fn expect_quotients(rt: &impl Abort, alloc: Global) -> Result<(), Fail> {
    for (num, den, want) in [
        (6, -4, "-3/2"),
        (-6, -4, "3/2"),
        (0, 7, "0"),
        (0, i128::MIN, "0"),
        (12, 4, "3"),
        (i128::MIN, 2, "-85070591730234615865843651857942052864"),
        (2, i128::MIN, "-1/85070591730234615865843651857942052864"),
        (i128::MIN, i128::MIN, "1"),
        (i128::MAX, 1, "170141183460469231731687303715884105727"),
        (1, -i128::MAX, "-1/170141183460469231731687303715884105727"),
        (1, 0, "by 0"),
        (i128::MIN, 0, "by 0"),
        (i128::MIN, 1, "too big"),
        (i128::MIN, -1, "too big"),
        (1, i128::MIN, "too big"),
        (i128::MIN, i128::MAX, "too big"),
    ] {
        let got = match Frac::new(num, den) {
            Ok(f) => printed(alloc, f)?,
            Err(FracFault::ZeroDen) => Vec::from_slice(alloc, b"by 0")?,
            Err(FracFault::TooBig) => Vec::from_slice(alloc, b"too big")?,
        };
        assert!(rt; got.as_slice() == want.as_bytes(), "{num} over {den}");
    }
    Ok(())
}

// Texts, each with how its number is spelt, or why it is none.
const TEXTS: &str = "7>7
-0>0
007/0021>1/3
-4/6>-2/3
0/5>0
170141183460469231731687303715884105727/170141183460469231731687303715884105727>1
1/0>by 0
1/000>by 0
170141183460469231731687303715884105728>past
1/170141183460469231731687303715884105728>past
-170141183460469231731687303715884105728/0>past
99999999999999999999999999999999999999999999999999/1>past
170141183460469231731687303715884105728/>form
1/>form
/1>form
>form
->form
--1>form
+1>form
1/-2>form
6/-4>form
1/2/3>form
 1>form
1 >form
1.5>form";

fn expect_texts(rt: &impl Abort, alloc: Global) -> Result<(), Fail> {
    for line in TEXTS.split('\n') {
        let (text, want) = line.split_once('>').ok_or("no answer")?;
        let got = match Frac::parse(text.as_bytes()) {
            Ok(f) => printed(alloc, f)?,
            Err(FracText::ZeroDen) => Vec::from_slice(alloc, b"by 0")?,
            Err(FracText::Past) => Vec::from_slice(alloc, b"past")?,
            Err(FracText::Form) => Vec::from_slice(alloc, b"form")?,
        };
        assert!(rt; got.as_slice() == want.as_bytes(), "{line}");
    }
    Ok(())
}

#[test]
fn numbers_are_spelt_in_lowest_terms(rt: HostRuntime) -> Result<(), Fail> {
    expect_quotients(&rt, rt.alloc())?;
    expect_texts(&rt, rt.alloc())
}

// Two numbers and what a step makes of them; `wide` where that is none. The other step undoes it: minus, and by.
const STEPS: &str = "1/2 + 1/3 = 5/6
1/6 + 1/3 = 1/2
-1/2 + 1/2 = 0
1/4 + 1/4 = 1/2
3 + 1/7 = 22/7
170141183460469231731687303715884105726 + 1 = 170141183460469231731687303715884105727
170141183460469231731687303715884105727 + 1 = wide
-170141183460469231731687303715884105727 + -1 = wide
170141183460469231731687303715884105727/3 + 1/3 = wide
1/18446744073709551617 + 1/18446744073709551619 = wide
1/9223372036854775808 + 1/9223372036854775807 = 18446744073709551615/85070591730234615856620279821087277056
2/3 * 3/4 = 1/2
-2/3 * 3/2 = -1
2/3 * -3/2 = -1
0 * 5/7 = 0
18446744073709551616/3 * 3/18446744073709551616 = 1
1267650600228229401496703205376/12157665459056928801 * 12157665459056928801/633825300114114700748351602688 = 2
170141183460469231731687303715884105727/2 * 2 = 170141183460469231731687303715884105727
85070591730234615865843651857942052864 * 2 = wide
85070591730234615865843651857942052864 * -2 = wide
1/18446744073709551616 * 1/9223372036854775808 = wide
1/9223372036854775808 * 1/9223372036854775808 = 1/85070591730234615865843651857942052864
18446744073709551616 * 9223372036854775807 = 170141183460469231713240559642174554112
4 lcm 6 = 12
1/2 lcm 1/3 = 1
3/4 lcm 5/6 = 15/2
2/3 lcm 2/3 = 2/3
170141183460469231731687303715884105727 lcm 1/2 = 170141183460469231731687303715884105727
1267650600228229401496703205376 lcm 42391158275216203514294433201 = wide";

// The quotient, and none also where the divisor is 0.
fn quotient(a: Frac, b: Frac) -> Option<Frac> {
    if b == Frac::zero() {
        return None;
    }
    Frac::div(a, b).ok()
}

// a divided by 1 / b.
fn by_turned(a: Frac, b: Frac) -> Option<Frac> {
    if b == Frac::zero() {
        return None;
    }
    quotient(a, b.recip())
}

// The least common multiple of two numbers above 0.
fn multiple(a: Frac, b: Frac) -> Option<Frac> {
    if !is_less(Frac::zero(), a) {
        return None;
    }
    if !is_less(Frac::zero(), b) {
        return None;
    }
    Frac::lcm_of(a, b).ok()
}

// What the step makes, and what the opposite step makes of the opposite number; of a multiple the same the other way round.
fn both_ways(step: &str, a: Frac, b: Frac) -> (Option<Frac>, Option<Frac>) {
    if step == "+" {
        (Frac::add(a, b).ok(), Frac::sub(a, b.negated()).ok())
    } else if step == "*" {
        (Frac::mul(a, b).ok(), by_turned(a, b))
    } else {
        (multiple(a, b), multiple(b, a))
    }
}

#[test]
fn steps_of_numbers(rt: HostRuntime) -> Result<(), Fail> {
    for line in STEPS.split('\n') {
        let words: Vec<&str> = line.split(' ').collect(rt.alloc())?;
        let [a, step, b, _, want] = words.as_slice() else {
            return Err(Fail::from("a line of other words"));
        };
        let wanted = Frac::parse(want.as_bytes()).ok();
        let (there, back) = both_ways(step, fraction(a), fraction(b));
        assert!(rt; there == wanted, "{line}");
        assert!(rt; back == wanted, "{line}, the other way");
    }
    Ok(())
}

#[test]
fn divisors_and_multiples(rt: HostRuntime) {
    assert!(rt; gcd_of(0, 0) == 0);
    assert!(rt; gcd_of(u128::MAX, 255) == 255);
    assert!(rt; gcd_of(1 << 127, 3 << 70) == 1 << 70);
    assert!(rt; least_common_multiple(1 << 64, 3 << 63) == Some(3 << 64));
    assert!(rt; least_common_multiple(1 << 127, 3).is_none());
}

// From the least to the greatest, each with its floor and its ceiling.
const ORDER: &str = "-7/2 -4 -3
-1/3 -1 0
0 0 0
1/3 0 1
170141183460469231731687303715884105725/170141183460469231731687303715884105726 0 1
170141183460469231731687303715884105726/170141183460469231731687303715884105727 0 1
1 1 1
170141183460469231731687303715884105727/170141183460469231731687303715884105726 1 2
170141183460469231731687303715884105726/170141183460469231731687303715884105725 1 2
7/2 3 4
4 4 4";

#[test]
fn compares_and_rounds(rt: HostRuntime) -> Result<(), Fail> {
    let alloc = rt.alloc();
    let mut numbers = Vec::new(alloc);
    for line in ORDER.split('\n') {
        let (number, whole) = line.split_once(' ').ok_or("no whole numbers")?;
        let f = fraction(number);
        let told = format!(in alloc; "{} {}", f.floor(), f.ceil())?;
        assert!(rt; told.as_str() == whole, "{line}");
        numbers.push(f)?;
    }
    for (i, f) in numbers.iter().enumerate() {
        for (j, g) in numbers.iter().enumerate() {
            assert!(rt; f.cmp(g) == i.cmp(&j), "{i} and {j}");
        }
    }
    assert!(rt; fraction("-7/2").whole_part() == Frac::zero());
    assert!(rt; fraction("7/2").whole_part() == Frac::from_whole(3));
    assert!(rt; fraction("-7/2").size_up() == 4);
    Ok(())
}
