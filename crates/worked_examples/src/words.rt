// Words and the jobs that they ask for.
use cell_base::{Cell, CellKind};
use geo_transform::Extent;
use std::alloc::{AllocError, Global};
use std::test::Fail;
use tool_words::{
    CheckJob, ContourJob, Job, RasterizeJob, SizeFrom, ValueFrom, WordFault, WordKind, Words,
    read_words,
};

fn words_of(alloc: Global, given: &[&str]) -> Result<Words, AllocError> {
    let mut words = Words::new(alloc);
    for word in given {
        words.push(word)?;
    }
    Ok(words)
}

// The job of these words, if they have one.
fn job_of(alloc: Global, given: &[&str]) -> Result<Option<Job>, AllocError> {
    let words = words_of(alloc, given)?;
    Ok(read_words(alloc, &words).ok())
}

fn sieves(job: Option<Job>, st: u32, eight: bool) -> bool {
    match job {
        Some(Job::Sieve(job)) => {
            job.source.as_str() == "a"
                && job.dest.as_str() == "b"
                && job.st == st
                && job.eight == eight
        }
        _ => false,
    }
}

#[test]
fn of_options_that_come_again_the_last_one_counts(rt: HostRuntime) -> Result<(), Fail> {
    let alloc = rt.alloc();
    let words = ["gdal_sieve", "-8", "a", "-4", "b", "-st", "5", "-st", "7"];
    assert!(rt; sieves(job_of(alloc, &words)?, 7, false));
    assert!(rt;
        sieves(
            job_of(alloc, &["gdal_sieve", "a", "-4", "-8", "b"])?,
            2,
            true
        )
    );
    Ok(())
}

// Whether the fixed levels are these, in millionths.
fn has_levels(job: &ContourJob, levels: &[i64]) -> bool {
    for i in 0..levels.len() {
        match job.fixed.get(i) {
            Some(level) => {
                if level.units() != levels[i] {
                    return false;
                }
            }
            None => return false,
        }
    }
    job.fixed.len() == levels.len()
}

fn draws(job: Option<Job>, interval: i64, levels: &[i64]) -> bool {
    match job {
        Some(Job::Contour(job)) => {
            let every = match job.interval {
                Some(every) => every.units() == interval,
                None => false,
            };
            every && has_levels(&job, levels) && job.offset.units() == 0 && job.field.is_none()
        }
        _ => false,
    }
}

#[test]
fn lists_of_levels_are_joined(rt: HostRuntime) -> Result<(), Fail> {
    let words = [
        "gdal_contour",
        "-fl",
        "1",
        "2",
        "-i",
        "5",
        "-fl",
        "-3e0",
        "a",
        "b",
    ];
    let levels = [1_000_000, 2_000_000, -3_000_000];
    assert!(rt; draws(job_of(rt.alloc(), &words)?, 5_000_000, &levels));
    Ok(())
}

fn burns_minus_three(job: &RasterizeJob) -> bool {
    match &job.value {
        ValueFrom::Burn(value) => *value == -3,
        ValueFrom::Field(_) => false,
    }
}

fn is_within(extent: &Extent) -> bool {
    extent.xmin.units() == -10_000_000_000
        && extent.ymin.units() == -10_000_000_000
        && extent.xmax.units() == 0
        && extent.ymax.units() == 0
}

fn is_plain(job: &RasterizeJob) -> bool {
    !job.invert && !job.touched && !job.add && job.init == 0
}

fn is_one_cell(job: Option<Job>) -> bool {
    match job {
        Some(Job::Rasterize(job)) => {
            let within = match &job.extent {
                Some(extent) => is_within(extent),
                None => false,
            };
            let one = job.size == (SizeFrom::Cells { ncols: 1, nrows: 1 });
            within
                && is_plain(&job)
                && one
                && job.kind == CellKind::Int64
                && burns_minus_three(&job)
        }
        _ => false,
    }
}

#[test]
fn values_may_begin_with_a_minus(rt: HostRuntime) -> Result<(), Fail> {
    let words = [
        "gdal_rasterize",
        "-burn",
        "-3",
        "-te",
        "-1",
        "-1",
        "0",
        "0",
        "-ts",
        "1",
        "1",
        "a",
        "b",
    ];
    assert!(rt; is_one_cell(job_of(rt.alloc(), &words)?));
    Ok(())
}

fn names_field(job: Option<Job>, field: &str, eight: bool) -> bool {
    match job {
        Some(Job::Polygonize(job)) => {
            job.field.as_str() == field && job.dest.as_str() == "b" && job.eight == eight
        }
        _ => false,
    }
}

#[test]
fn a_layer_may_be_named_before_the_field(rt: HostRuntime) -> Result<(), Fail> {
    let alloc = rt.alloc();
    let plain = ["gdal_polygonize", "a", "-8", "b"];
    assert!(rt; names_field(job_of(alloc, &plain)?, "DN", true));
    let named = ["gdal_polygonize", "a", "b", "WKT", "class"];
    assert!(rt; names_field(job_of(alloc, &named)?, "class", false));
    Ok(())
}

// Words of check, with the numbers that they name, and the type of the cells.
const CHECKED: [(&[&str], [u32; 4], CellKind); 6] = [
    (
        &["check", "1", "3", "2", "2"],
        [1, 3, 2, 2],
        CellKind::Int64,
    ),
    (
        &["check", "-ot", "byte", "-q", "0", "3", "4", "256"],
        [0, 3, 4, 256],
        CellKind::Byte,
    ),
    (
        &["check", "1", "5", "-ot", "INT16", "-q", "2", "007"],
        [1, 5, 2, 7],
        CellKind::Int16,
    ),
    (
        &["check", "1", "3", "2", "1", "-q", "-ot", "Int32"],
        [1, 3, 2, 1],
        CellKind::Int32,
    ),
    (
        &["check", "-ot", "Byte", "1", "3", "-ot", "Int16", "2", "2"],
        [1, 3, 2, 2],
        CellKind::Int16,
    ),
    (
        &["check", "2147483647", "2147483646", "2147483647", "2"],
        [2_147_483_647, 2_147_483_646, 2_147_483_647, 2],
        CellKind::Int64,
    ),
];

fn checks(job: Option<Job>, numbers: [u32; 4], kind: CellKind) -> bool {
    let [seed, width, height, values] = numbers;
    match job {
        Some(Job::Check(job)) => {
            job == (CheckJob {
                seed,
                width,
                height,
                values,
                kind,
            })
        }
        _ => false,
    }
}

#[test]
fn check_is_given_four_numbers(rt: HostRuntime) -> Result<(), Fail> {
    for (words, numbers, kind) in CHECKED {
        assert!(rt; checks(job_of(rt.alloc(), words)?, numbers, kind));
    }
    Ok(())
}

// Words of check that are refused, with what is wrong and its place.
const REFUSED: [(&[&str], WordKind, u64); 15] = [
    (&["check"], WordKind::MissingName, 2),
    (&["check", "1", "3", "2"], WordKind::MissingName, 5),
    (&["check", "1", "3", "2", "2", "9"], WordKind::ExtraWord, 6),
    (&["check", "1", "0", "2", "2"], WordKind::BadValue, 3),
    (&["check", "1", "3", "0", "2"], WordKind::BadValue, 4),
    (&["check", "1", "3", "2", "257"], WordKind::BadValue, 5),
    (&["check", "1", "3", "2", "0"], WordKind::BadValue, 5),
    (
        &["check", "2147483648", "3", "2", "2"],
        WordKind::BadValue,
        2,
    ),
    (&["check", "x", "3", "2", "2"], WordKind::BadValue, 2),
    (&["check", "-1", "3", "2", "2"], WordKind::UnknownOption, 2),
    (
        &["check", "1", "3", "2", "2", "-ot", "Float32"],
        WordKind::BadValue,
        7,
    ),
    (
        &["check", "1", "3", "2", "2", "-ot"],
        WordKind::MissingValue,
        6,
    ),
    (
        &["check", "1", "3", "2", "2", "-st", "2"],
        WordKind::UnknownOption,
        6,
    ),
    (&["check", "-ot", "1", "3", "2", "2"], WordKind::BadValue, 3),
    (&["Check", "1", "3", "2", "2"], WordKind::UnknownTool, 1),
];

fn is_refused(read: Result<Job, WordFault>, wrong: WordKind, at: u64) -> bool {
    match read {
        Err(WordFault::At { kind, place }) => kind == wrong && place == at,
        _ => false,
    }
}

#[test]
fn the_first_fault_of_the_words_of_check_is_told(rt: HostRuntime) -> Result<(), Fail> {
    let alloc = rt.alloc();
    for (given, wrong, at) in REFUSED {
        let words = words_of(alloc, given)?;
        assert!(rt; is_refused(read_words(alloc, &words), wrong, at));
    }
    Ok(())
}
