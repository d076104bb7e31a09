use super::assert_gives;
use pcl_base::{JobFault, Kind, Name, Profile, Refusal, Sign, Value};
use pcl_escape::{
    Command, CommandList, one_outcome, read_by_drivers, read_commands, read_job, some_outcome,
};
use std::alloc::Global;
use std::process::Abort;
use std::test::Fail;

const JOB: &[u8] = b"\x1bE\x1b*t300R\x1b*r0A\x1b*b1W\x80\x1b*p+1.25x-2Y\x0c\x00\x1b*rC\x1b*b-0.5W";

/// A command: its place, name, sign and magnitude in ten-thousandths, and its data.
type Parts = ((usize, Name, Sign, u32), &'static [u8]);

const COMMANDS: [Parts; 9] = [
    ((0, Name::One(b'E'), Sign::Absent, 0), b""),
    (
        (2, Name::Three(b'*', b't', b'R'), Sign::Absent, 3_000_000),
        b"",
    ),
    ((9, Name::Three(b'*', b'r', b'A'), Sign::Absent, 0), b""),
    (
        (14, Name::Three(b'*', b'b', b'W'), Sign::Absent, 10_000),
        b"\x80",
    ),
    ((20, Name::Three(b'*', b'p', b'X'), Sign::Plus, 12_500), b""),
    (
        (29, Name::Three(b'*', b'p', b'Y'), Sign::Minus, 20_000),
        b"",
    ),
    ((32, Name::One(12), Sign::Absent, 0), b""),
    ((34, Name::Three(b'*', b'r', b'C'), Sign::Absent, 0), b""),
    ((38, Name::Three(b'*', b'b', b'W'), Sign::Minus, 5_000), b""),
];

#[test]
fn reads_a_job(rt: HostRuntime) -> Result<(), Fail> {
    assert_commands(&rt, rt.alloc(), JOB, &COMMANDS)
}

fn assert_commands(
    rt: &impl Abort,
    alloc: Global,
    job: &[u8],
    expected: &[Parts],
) -> Result<(), Fail> {
    let commands = read_job(alloc, Profile::Stated, job)?;
    let list = read_commands(alloc, Profile::Stated, job)?;
    assert_gives(rt, &job, &commands.len(), &expected.len());
    for (place, (command, wanted)) in commands.iter().zip(expected).enumerate() {
        assert_command(rt, job, Some(*command), wanted);
        assert_command(rt, job, list.command_at(place), wanted);
    }
    let past_end = list.command_at(expected.len());
    assert_gives(rt, &job, &past_end.is_none(), &true);
    Ok(())
}

fn assert_command(
    rt: &impl Abort,
    job: &[u8],
    command: Option<Command<'_>>,
    (wanted, bytes): &Parts,
) {
    let command = command.expect(rt, "a command");
    let Value { sign, parts } = command.value;
    assert_gives(rt, &job, &(command.at, command.name, sign, parts), wanted);
    assert_gives(rt, &job, &command.bytes, bytes);
}

const TEXTS: &[u8] = b" A\x00\x7f\xff\x0cB\x1b&p3X\x1bE\x0cC\x1b)s1W\x00\x1b(s0W";

// Runs of text go on as long as text does, and the data of fonts and of transparent text are theirs.
const RUNS: [Parts; 8] = [
    ((0, Name::TEXT, Sign::Absent, 0), b" A"),
    ((3, Name::TEXT, Sign::Absent, 0), b"\x7f\xff"),
    ((5, Name::One(12), Sign::Absent, 0), b""),
    ((6, Name::TEXT, Sign::Absent, 0), b"B"),
    (
        (7, Name::Three(b'&', b'p', b'X'), Sign::Absent, 30_000),
        b"\x1bE\x0c",
    ),
    ((15, Name::TEXT, Sign::Absent, 0), b"C"),
    (
        (16, Name::Three(b')', b's', b'W'), Sign::Absent, 10_000),
        b"\x00",
    ),
    ((22, Name::Three(b'(', b's', b'W'), Sign::Absent, 0), b""),
];

#[test]
fn reads_text(rt: HostRuntime) -> Result<(), Fail> {
    assert_commands(&rt, rt.alloc(), TEXTS, &RUNS)
}

// The fifth decimal is dropped before the range is tested.
const GREATEST_VALUES: [Parts; 2] = [
    (
        (0, Name::Three(b'*', b'p', b'X'), Sign::Absent, 655_350_000),
        b"",
    ),
    (
        (15, Name::Three(b'*', b'p', b'X'), Sign::Minus, 327_670_000),
        b"",
    ),
];

#[test]
fn reads_the_greatest_values(rt: HostRuntime) -> Result<(), Fail> {
    let job = b"\x1b*p65535.00009x-32767.00009X";
    assert_commands(&rt, rt.alloc(), job, &GREATEST_VALUES)
}

const EXIT: Name = Name::Two(b'%', b'X');

const RESET: Name = Name::One(b'E');

const CLIPPING: Name = Name::Three(b'&', b'd', b'@');

/// A job, and the commands that it gives, by place and name.
type Sequence = (&'static [u8], &'static [(usize, Name)]);

const SEQUENCES: [Sequence; 20] = [
    (b"", &[]),
    (b"\x1b(8U", &[(0, Name::Two(b'(', b'U'))]),
    (b"\x1b)-.5@", &[(0, Name::Two(b')', b'@'))]),
    (b"\x1b(^", &[(0, Name::Two(b'(', b'^'))]),
    (
        b"\x1b%0A\x1b(s0P",
        &[
            (0, Name::Two(b'%', b'A')),
            (4, Name::Three(b'(', b's', b'P')),
        ],
    ),
    (b"\x1b&d`0@", &[(0, CLIPPING), (4, CLIPPING)]),
    (b"\x1b%-12345X\x1bE", &[(0, EXIT), (9, RESET)]),
    (b"\x1b%-12345.9X@PJL\n\x1bE", &[(0, EXIT), (16, RESET)]),
    (
        b"\x1b%-12345X@PJL EOJ\r\n@PJLX\n\x1bE",
        &[(0, EXIT), (25, RESET)],
    ),
    (
        b"\x1b%-12345X@PJL enter\tLanguage = P C L\r\n\x1bE",
        &[(0, EXIT), (38, RESET)],
    ),
    (b"\x1b%-12345X@PJL ENTER LANGUAGE=PCL", &[(0, EXIT)]),
    (b"\x1b%-12345X@PJL EOJ\x1b%-12345X\x1bE", &[(0, EXIT)]),
    (
        b"\x1b%-12345X@PJL EOJ\x1b%-12345X\n\x1bE",
        &[(0, EXIT), (27, RESET)],
    ),
    (
        b"\x1b%-12345X@PJL COMMENT LANGUAGE=XL\n\x1bE",
        &[(0, EXIT), (34, RESET)],
    ),
    (b"\x1b%12345X\x1bE", &[(0, EXIT), (8, RESET)]),
    (b"\x1b%-12344X\x1bE", &[(0, EXIT), (9, RESET)]),
    (
        b"\x1b%-12345X@pjl x\n",
        &[(0, EXIT), (9, Name::TEXT), (15, Name::One(10))],
    ),
    (b"\x1b%-12345X @PJL", &[(0, EXIT), (9, Name::TEXT)]),
    (
        b"\x1b%-12345X@PJL ENTER LANGUAGE=PCL\n@PJL x",
        &[(0, EXIT), (33, Name::TEXT)],
    ),
    (
        b"\x1b(3X\x1b)X",
        &[(0, Name::Two(b'(', b'X')), (4, Name::Two(b')', b'X'))],
    ),
];

const LINES: &[u8] = b"\x1b%-12345X@PJL EOJ\r\n@PJLX\n\x1bE";

// The lines after a universal exit are its data.
const EXITS: [Parts; 2] = [
    ((0, EXIT, Sign::Minus, 123_450_000), b"@PJL EOJ\r\n@PJLX\n"),
    ((25, RESET, Sign::Absent, 0), b""),
];

#[test]
fn reads_lines_of_an_exit(rt: HostRuntime) -> Result<(), Fail> {
    assert_commands(&rt, rt.alloc(), LINES, &EXITS)
}

#[test]
fn reads_sequences(rt: HostRuntime) -> Result<(), Fail> {
    assert_sequences(&rt, rt.alloc(), &SEQUENCES)
}

fn assert_sequences(rt: &impl Abort, alloc: Global, sequences: &[Sequence]) -> Result<(), Fail> {
    for (job, expected) in sequences {
        let commands = read_job(alloc, Profile::Stated, job)?;
        assert_names(rt, job, &commands, expected);
    }
    Ok(())
}

fn assert_names(rt: &impl Abort, job: &[u8], commands: &[Command<'_>], expected: &[(usize, Name)]) {
    assert_gives(rt, &job, &commands.len(), &expected.len());
    for (command, wanted) in commands.iter().zip(expected) {
        assert_gives(rt, &job, &(command.at, command.name), wanted);
    }
}

/// Commands of the drivers' profile, and their names.
const OF_DRIVERS: [(&[u8], Name); 7] = [
    (b"\x1b&l1T", Name::Three(b'&', b'l', b'T')),
    (b"\x1b&k1W", Name::Three(b'&', b'k', b'W')),
    (b"\x1b*o-1M", Name::Three(b'*', b'o', b'M')),
    (b"\x1b*o2Q", Name::Three(b'*', b'o', b'Q')),
    (b"\x1b*o3D", Name::Three(b'*', b'o', b'D')),
    (b"\x1b*r2Q", Name::Three(b'*', b'r', b'Q')),
    (b"\x1b*b0S", Name::Three(b'*', b'b', b'S')),
];

// The stated profile doesn't have them.
#[test]
fn reads_by_profile(rt: HostRuntime) -> Result<(), Fail> {
    for (job, name) in OF_DRIVERS {
        let commands = read_job(rt.alloc(), Profile::Drivers, job)?;
        assert_names(&rt, job, &commands, &[(0, name)]);
        let refusal = Refusal::new(Kind::UnsupportedCommand, 0, name);
        let stated = read_job(rt.alloc(), Profile::Stated, job);
        let fault = stated.err();
        assert_gives(&rt, &job, &fault, &Some(JobFault::Refused(refusal)));
    }
    Ok(())
}

// The laws do nothing.
#[test]
fn states_the_laws() {
    one_outcome();
    some_outcome();
    read_by_drivers();
}
