//! How commands end where the output, the input or the rule file fails or is cut off, at each place.

use crate::cases::{Case, End, end_of, end_over, optimising, rule_file, turned, words_alone};
use qz_circ::{QasmFault, Which};
use qz_io::MemShelf;
use qz_samples::{measured_lines, two_gates, two_registers};
use qz_top::Status;
use std::alloc::{AllocError, Global};
use std::test::Fail;

// The first so many bytes.
fn front(bytes: &[u8], length: usize) -> &[u8] {
    &bytes[..length.min(bytes.len())]
}

// Whether an output that fails at this place gets as many bytes of the rules.
fn output_fails_at(alloc: Global, stop: usize) -> Result<bool, AllocError> {
    let case = Case {
        out_stops: &[stop as u64],
        ..words_alone("generate 2 1 0")
    };
    let end = end_of(alloc, case)?;
    let rules = front(two_gates().as_bytes(), stop);
    Ok(end.is(Status::WriteFault, 0) && end.wrote(rules, b"write fault\n"))
}

#[test]
fn the_output_fails_at_each_place(rt: HostRuntime) -> Result<(), Fail> {
    assert!(rt; two_gates().len() == 1246);
    for stop in 0..1246 {
        assert!(rt; output_fails_at(rt.alloc(), stop)?, "at {stop}");
    }
    Ok(())
}

// Whether it ended so before any byte of the input was read, and told this.
fn is_early(end: &End, status: Status, text: &[u8]) -> bool {
    end.is(status, turned().len()) && end.wrote(b"", text)
}

// Whether a shelf that fails at this place of the rule file ends the command, before the input is read.
fn shelf_fails_at(alloc: Global, stop: u64) -> Result<bool, AllocError> {
    let case = Case {
        shelf_stops: &[stop],
        ..optimising()
    };
    let end = end_of(alloc, case)?;
    Ok(is_early(&end, Status::ShelfFault, b"rule file fault\n"))
}

#[test]
fn the_shelf_fails_at_each_place(rt: HostRuntime) -> Result<(), Fail> {
    for stop in 0..=1246 {
        assert!(rt; shelf_fails_at(rt.alloc(), stop)?, "at {stop}");
    }
    Ok(())
}

// Whether an input that fails at this place ends the command, where the bytes before it are read.
fn input_fails_at(alloc: Global, case: Case<'_>, stop: usize) -> Result<bool, AllocError> {
    let case = Case {
        input_stops: &[stop as u64],
        ..case
    };
    let end = end_of(alloc, case)?;
    let left = case.input.len().saturating_sub(stop);
    Ok(end.is(Status::ReadFault, left) && end.wrote(b"", b"read fault\n"))
}

#[test]
fn the_input_fails_at_each_place(rt: HostRuntime) -> Result<(), Fail> {
    let tidying = Case {
        input: turned(),
        ..words_alone("tidy")
    };
    for case in [optimising(), tidying] {
        for stop in 0..=turned().len() {
            assert!(rt; input_fails_at(rt.alloc(), case, stop)?, "at {stop}");
        }
    }
    Ok(())
}

// Whether the rule file that is cut off at this length has its fault there, and the input isn't read.
fn cut_rules_fail(alloc: Global, length: usize) -> Result<bool, AllocError> {
    let case = Case {
        rules: front(two_gates().as_bytes(), length),
        ..optimising()
    };
    let end = end_of(alloc, case)?;
    let place = length as u64;
    let text = format!(in alloc; "rules: Syntax at {place}\n")?;
    Ok(is_early(&end, Status::RuleSyntax { place }, text.as_bytes()))
}

#[test]
fn the_rule_file_is_cut_off_at_each_place(rt: HostRuntime) -> Result<(), Fail> {
    for length in 0..1246 {
        assert!(rt; cut_rules_fail(rt.alloc(), length)?, "at {length}");
    }
    Ok(())
}

// How `tidy` ends with this input.
fn tidied(alloc: Global, input: &[u8]) -> Result<End, AllocError> {
    let case = Case {
        input,
        ..words_alone("tidy")
    };
    end_of(alloc, case)
}

// Whether the program that is cut off at this length is tidied just where a statement ends there.
fn ends_by_statements(alloc: Global, length: usize) -> Result<bool, AllocError> {
    let program = front(two_registers(), length);
    let end = tidied(alloc, program)?;
    Ok(end.is(Status::Ok, 0) == program.trim_ascii_end().ends_with(b";"))
}

// Cut off behind a statement, a program is a shorter one; cut off within one, it is none.
#[test]
fn the_program_is_cut_off_at_each_place(rt: HostRuntime) -> Result<(), Fail> {
    let alloc = rt.alloc();
    for length in 0..=two_registers().len() {
        assert!(rt; ends_by_statements(alloc, length)?, "at {length}");
    }
    let none = Status::Qasm(QasmFault::Syntax { place: 0 });
    let end = tidied(alloc, b"")?;
    assert!(rt; end.is(none, 0) && end.wrote(b"", b"program: Syntax at 0\n"));
    let end = tidied(alloc, two_registers())?;
    assert!(rt; end.wrote(measured_lines(), b""));
    Ok(())
}

// Whether a rule file of so many spaces is past the limit, where the input isn't read.
fn is_too_long(alloc: Global, count: usize) -> Result<bool, AllocError> {
    let file = rule_file(alloc, vec![in alloc; b' '; count]?)?;
    let mut shelf = MemShelf::new(file, Vec::new(alloc), false);
    let end = end_over(alloc, optimising(), &mut shelf)?;
    let status = Status::Limit(Which::RuleBytes);
    Ok(is_early(&end, status, b"limit: rule-bytes\n"))
}

#[test]
fn the_rule_file_is_past_its_limit(rt: HostRuntime) -> Result<(), Fail> {
    assert!(rt; is_too_long(rt.alloc(), 134_217_729)?);
    Ok(())
}
