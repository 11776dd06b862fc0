// The five types of cells. Each example is a text and its answer.
use cell_base::{Cell, Micro};
use std::alloc::Global;
use std::process::Abort;
use std::test::Fail;

const BYTE: &str = "255 Ok(255)
256 Err(OutOfRange)
-1 Err(OutOfRange)
-0 Ok(0)
1.5 Err(NotWhole)
x Err(NotNumber)";

const INT16: &str = "-32768 Ok(-32768)
32767 Ok(32767)
32768 Err(OutOfRange)
-32769 Err(OutOfRange)
1e2 Ok(100)";

const INT32: &str = "-2147483648 Ok(-2147483648)
2147483647 Ok(2147483647)
2147483648 Err(OutOfRange)
-2147483649.0 Err(OutOfRange)
0.1 Err(NotWhole)";

const INT64: &str = "-9223372036854775808 Ok(-9223372036854775808)
9223372036854775807 Ok(9223372036854775807)
9223372036854775808 Err(OutOfRange)
-9223372036854775809 Err(OutOfRange)
9223372036854775807.5 Err(NotWhole)
1e99 Err(OutOfRange)
-9999 Ok(-9999)";

const MICRO: &str = "-3.4028234663852886e+38 Ok(-1000000000000000000)
1000000000000.0000005 Ok(1000000000000000000)
0.0000005 Ok(1)
-0.0000005 Ok(-1)
0.00000049 Ok(0)
nan Err(NotNumber)";

/// What a type reads, as units.
fn reads<T: Cell>(rt: &impl Abort, alloc: Global, examples: &str) -> Result<(), Fail> {
    for example in examples.lines() {
        let (text, want) = example.split_once(' ').ok_or("an example")?;
        let answer = match T::read(text.as_bytes()) {
            Ok(v) => Ok(v.units()),
            Err(fault) => Err(fault),
        };
        assert!(rt; format!(in alloc; "{answer:?}")?.as_str() == want, "{text}");
    }
    Ok(())
}

#[test]
fn reads_whole_types(rt: HostRuntime) -> Result<(), Fail> {
    reads::<u8>(&rt, rt.alloc(), BYTE)?;
    reads::<i16>(&rt, rt.alloc(), INT16)?;
    reads::<i32>(&rt, rt.alloc(), INT32)?;
    reads::<i64>(&rt, rt.alloc(), INT64)
}

#[test]
fn reads_decimals(rt: HostRuntime) -> Result<(), Fail> {
    reads::<Micro>(&rt, rt.alloc(), MICRO)?;
    assert!(rt; Micro::from_units(1_000_000_000_000_000_001).is_none());
    assert!(rt; Micro::from_units(-1_000_000_000_000_000_000).is_some());
    Ok(())
}

/// An end of a type: it is written and read again.
fn end<T: Cell>(
    rt: &impl Abort,
    alloc: Global,
    past: i128,
    units: i64,
    text: &str,
) -> Result<(), Fail> {
    let end = T::clamp_from(past);
    assert!(rt; end.units() == units);
    let mut out = Vec::new(alloc);
    end.write(&mut out)?;
    assert!(rt; out.as_slice() == text.as_bytes());
    assert!(rt; T::read(&out).ok() == Some(end));
    Ok(())
}

/// Calls each member of a type.
fn ends<T: Cell>(
    rt: &impl Abort,
    alloc: Global,
    places: u32,
    low: &str,
    high: &str,
) -> Result<(), Fail> {
    assert!(rt; T::PLACES == places);
    end::<T>(rt, alloc, i128::from(T::lowest()) - 1, T::lowest(), low)?;
    end::<T>(rt, alloc, i128::from(T::highest()) + 1, T::highest(), high)?;
    assert!(rt; T::clamp_from(-1) < T::clamp_from(1));
    Ok(())
}

#[test]
fn calls_each_member(rt: HostRuntime) -> Result<(), Fail> {
    ends::<u8>(&rt, rt.alloc(), 0, "0", "255")?;
    ends::<i16>(&rt, rt.alloc(), 0, "-32768", "32767")?;
    ends::<i32>(&rt, rt.alloc(), 0, "-2147483648", "2147483647")?;
    ends::<i64>(
        &rt,
        rt.alloc(),
        0,
        "-9223372036854775808",
        "9223372036854775807",
    )?;
    ends::<Micro>(&rt, rt.alloc(), 6, "-1000000000000", "1000000000000")
}
