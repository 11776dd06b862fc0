// Number texts, and the shortest text. Each example is a text and its answer.
use fixed_coord::{Coord, ratio_round, scaled, short_whole, side, whole, write_scaled};
use std::alloc::Global;
use std::cmp::Ordering;
use std::test::Fail;

const AT_FOUR_PLACES: &str = "1.50E-2 Ok(150)
0.00005 Ok(1)
-0.00005 Ok(-1)
0.00004999999999999999999999999999999999999999 Ok(0)";

const AT_ONE_PLACE: &str = "5 Ok(50)
+5 Ok(50)
5. Ok(50)
.5 Ok(5)
-0 Ok(0)
-0.04 Ok(0)
1e3 Ok(10000)
1E+3 Ok(10000)
007.25 Ok(73)
-7.25 Ok(-73)
7.24999 Ok(72)
-7.24999 Ok(-72)
1e29 Ok(1000000000000000000000000000000)
-1e29 Ok(-1000000000000000000000000000000)
9e28 Ok(900000000000000000000000000000)
1e-1 Ok(1)
0.5e-1 Ok(1)
0.49e-1 Ok(0)
0e99999999999999999999 Ok(0)
1e99999999999999999999 Ok(1000000000000000000000000000000)
-1e-99999999999999999999 Ok(0)
0000000000000000000000000000000000000000000000000.1 Ok(1)
100000000000000000000000000000000000000000000000e-47 Ok(10)";

const WHOLE: &str = "12.0 Ok(12)
12.5 Err(NotWhole)
1e40 Ok(1000000000000000000000000000000)
-1e40 Ok(-1000000000000000000000000000000)
125e-1 Err(NotWhole)
1250e-1 Ok(125)
0.000e-7 Ok(0)
0.0010e3 Ok(1)
-999999999999999999 Ok(-999999999999999999)
+1000000000000000000 Ok(1000000000000000000)
1e-99999999999999999999 Err(NotWhole)";

// divided by bars
const NO_NUMBERS: &str = "|.|+|-|e3|1e|1e+|1e1.5|nan|inf|0x10|1,5| 1|1 |1.2.3|--1|1d5|\u{661}";

const COORDINATES: &str = "40000000.00000000004 Ok(400000000000000000)
40000000.00000000005 Err(OutOfRange)
-40000000.00000000004 Ok(-400000000000000000)
-40000000.00000000005 Err(OutOfRange)
-0.50 Ok(-5000000000)
1e-10 Ok(1)
1e8 Err(OutOfRange)
1e Err(NotNumber)";

#[test]
fn scales(rt: HostRuntime) -> Result<(), Fail> {
    for example in AT_ONE_PLACE.lines() {
        let (text, want) = example.split_once(' ').ok_or("an example")?;
        let answer = scaled(text.as_bytes(), 1);
        assert!(rt;
            format!(in rt.alloc(); "{answer:?}")?.as_str() == want,
            "{text}"
        );
    }
    for example in AT_FOUR_PLACES.lines() {
        let (text, want) = example.split_once(' ').ok_or("an example")?;
        let answer = scaled(text.as_bytes(), 4);
        assert!(rt;
            format!(in rt.alloc(); "{answer:?}")?.as_str() == want,
            "{text}"
        );
    }
    Ok(())
}

#[test]
fn reads_whole_numbers(rt: HostRuntime) -> Result<(), Fail> {
    for example in WHOLE.lines() {
        let (text, want) = example.split_once(' ').ok_or("an example")?;
        let answer = whole(text.as_bytes());
        assert!(rt;
            format!(in rt.alloc(); "{answer:?}")?.as_str() == want,
            "{text}"
        );
    }
    assert!(rt; short_whole(b"-000000000000000012") == Some(-12));
    assert!(rt; short_whole(b"0000000000000000000") == None);
    assert!(rt; short_whole(b"12.0") == None);
    Ok(())
}

#[test]
fn refuses(rt: HostRuntime) -> Result<(), Fail> {
    for text in NO_NUMBERS.split('|') {
        let units = scaled(text.as_bytes(), 10);
        let number = whole(text.as_bytes());
        assert!(rt;
            format!(in rt.alloc(); "{units:?}{number:?}")?.as_str()
                == "Err(NotNumber)Err(NotNumber)",
            "{text}"
        );
    }
    Ok(())
}

/// Many nines behind the head of a text.
fn nines(alloc: Global, head: &[u8]) -> Result<Vec<u8>, Fail> {
    let mut text = head.to_vec(alloc)?;
    for _ in 0..1_000_000 {
        text.push(b'9')?;
    }
    Ok(text)
}

#[test]
fn reads_a_long_exponent(rt: HostRuntime) -> Result<(), Fail> {
    const HELD: i128 = 1_000_000_000_000_000_000_000_000_000_000;
    assert!(rt; scaled(&nines(rt.alloc(), b"1e-")?, 10) == Ok(0));
    assert!(rt; scaled(&nines(rt.alloc(), b"1e+")?, 10) == Ok(HELD));
    assert!(rt; whole(&nines(rt.alloc(), b"0e+")?) == Ok(0));
    assert!(rt; whole(&nines(rt.alloc(), b"-")?) == Ok(-HELD));
    Ok(())
}

#[test]
fn reads_coordinates(rt: HostRuntime) -> Result<(), Fail> {
    for example in COORDINATES.lines() {
        let (text, want) = example.split_once(' ').ok_or("an example")?;
        let answer = Coord::read(text.as_bytes()).map(|c| c.units());
        assert!(rt;
            format!(in rt.alloc(); "{answer:?}")?.as_str() == want,
            "{text}"
        );
    }
    assert!(rt; Coord::from_units(400_000_000_000_000_001).is_none());
    assert!(rt; Coord::from_units(-400_000_000_000_000_001).is_none());
    Ok(())
}

#[test]
fn writes(rt: HostRuntime) -> Result<(), Fail> {
    let mut out = Vec::new(rt.alloc());
    let values: [i64; 5] = [-5, 0, 1_000_400, -1, 12_000_000_000];
    for value in values {
        write_scaled(i128::from(value), 1, &mut out)?;
        out.push(b' ')?;
        write_scaled(i128::from(value), 10, &mut out)?;
        out.push(b'\n')?;
    }
    let want = "-0.5 -0.0000000005\n0 0\n100040 0.00010004\n-0.1 -0.0000000001\n1200000000 1.2\n";
    assert!(rt; out.as_slice() == want.as_bytes());
    let mut coordinate = Vec::new(rt.alloc());
    Coord::from_units(-5_000_000_000)
        .ok_or("a half")?
        .write(&mut coordinate)?;
    assert!(rt; coordinate.as_slice() == "-0.5".as_bytes());
    Ok(())
}

#[test]
fn tells_sides(rt: HostRuntime) {
    const FAR: i64 = 1_000_000_000_000_000_000;
    assert!(rt; side((0, 0), (1, 0), (0, 1)) == Ordering::Greater);
    assert!(rt; side((0, 0), (2, 2), (-1, -1)) == Ordering::Equal);
    assert!(rt; side((-FAR, -FAR), (FAR, FAR), (FAR - 1, FAR)) == Ordering::Greater);
    assert!(rt; side((-FAR, -FAR), (FAR, FAR), (FAR, FAR - 1)) == Ordering::Less);
}

#[test]
fn rounds(rt: HostRuntime) {
    assert!(rt; ratio_round(5, 2) == 3);
    assert!(rt; ratio_round(-5, 2) == -3);
    assert!(rt; ratio_round(4, 3) == 1);
    // the left edge of a cell of one unit about zero, and of a cell of size 1 about 0.5
    assert!(rt; ratio_round(-1, 2) == -1);
    assert!(rt; ratio_round(2 * 5_000_000_000 - 10_000_000_000, 2) == 0);
}
