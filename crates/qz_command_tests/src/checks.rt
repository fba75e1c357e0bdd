//! What `check` writes for two programs, why it refuses them, and how much of the input is read.

use qz_circ::{AngleFault, QasmFault, Which};
use qz_io::{MemShelf, MemSink, MemSource, Named, SureSink};
use qz_samples::words_of;
use qz_top::{Status, run_solo};
use std::alloc::{AllocError, Global};
use std::process::Abort;
use std::test::Fail;

// Two programs, and where the input and the shelf fail. The input is the first one, and the file f the second.
#[derive(Clone, Copy)]
struct Case<'a> {
    input: &'a str,
    file: &'a str,
    input_stops: &'a [u64],
    shelf_stops: &'a [u64],
}

// These programs, and nothing that fails.
fn programs<'a>(input: &'a str, file: &'a str) -> Case<'a> {
    Case {
        input,
        file,
        input_stops: &[],
        shelf_stops: &[],
    }
}

// The next function hides the clauses of what is tested: a test that knows less is proved sooner.
fn answer(
    alloc: Global,
    words: &[String],
    input: &mut MemSource,
    shelf: &mut MemShelf,
    out: &mut MemSink,
) -> Status {
    let mut err = SureSink::new(alloc);
    run_solo(alloc, words, input, shelf, out, &mut err)
}

// A shelf with the file f.
fn shelf_with(alloc: Global, file: &str, stops: &[u64]) -> Result<MemShelf, AllocError> {
    let bytes = Vec::from_slice(alloc, file.as_bytes())?;
    let mut files = Vec::new(alloc);
    files.push(Named::new(String::from_str(alloc, "f")?, bytes))?;
    Ok(MemShelf::new(files, Vec::from_slice(alloc, stops)?, false))
}

// Whether the words end so, with this text on the output, where so many bytes of the input are left.
fn ends(
    alloc: Global,
    words: &str,
    case: Case<'_>,
    status: Status,
    text: &str,
    left: usize,
) -> Result<bool, AllocError> {
    let words = words_of(alloc, words)?;
    let bytes = Vec::from_slice(alloc, case.input.as_bytes())?;
    let mut input = MemSource::new(bytes, Vec::from_slice(alloc, case.input_stops)?);
    let mut shelf = shelf_with(alloc, case.file, case.shelf_stops)?;
    let mut out = MemSink::new(alloc, Vec::new(alloc));
    let end = answer(alloc, &words, &mut input, &mut shelf, &mut out);
    Ok(end == status && out.written() == text.as_bytes() && input.left().len() == left)
}

// Each two programs are compared with this result, and the input is read to its end.
fn compares(rt: &impl Abort, alloc: Global, rows: &[(&str, &str, &str)]) {
    for (input, file, text) in rows {
        let case = programs(input, file);
        let done = ends(alloc, "check --with f", case, Status::Ok, text, 0);
        assert!(rt; done.unwrap_or(false), "{input}");
    }
}

// Only the gates count, on qubits that are numbered by the order of the registers.
#[test]
fn compares_programs(rt: HostRuntime) {
    let alloc = rt.alloc();
    let toffoli = "OPENQASM 2.0;\nqreg q[3];\nccx q[0],q[1],q[2];";
    let other_controls = "OPENQASM 2.0;\nqreg a[2]; qreg b[1];\nccx a[1],a[0],b[0];";
    let y = "OPENQASM 2.0;\nqreg q[1];\ny q[0];";
    let x_and_z = "OPENQASM 2.0;\nqreg p[1]; creg c[1];\nx p[0]; z p[0];\nmeasure p -> c;";
    let least = "OPENQASM 2.0;\nqreg q[1];\nrz(pi/256) q[0];";
    let none = "OPENQASM 2.0;\nqreg q[1];";
    let two_h = "OPENQASM 2.0;\nqreg q[1];\nh q[0]; h q[0];";
    let h = "OPENQASM 2.0;\nqreg q[1];\nh q[0];";
    let nothing = "OPENQASM 2.0;";
    let rows = [
        (toffoli, other_controls, "equivalent\n"),
        (y, x_and_z, "equivalent\n"),
        (x_and_z, y, "equivalent\n"),
        (least, none, "different\n"),
        (none, least, "different\n"),
        (two_h, none, "equivalent\n"),
        (none, two_h, "equivalent\n"),
        (h, two_h, "different\n"),
        (nothing, nothing, "equivalent\n"),
    ];
    compares(&rt, alloc, &rows);
}

// Each two programs are refused with this status, where so many bytes of the input are left and nothing is written.
fn refuses(rt: &impl Abort, alloc: Global, rows: &[(Case<'_>, Status, usize)]) {
    for (case, status, left) in rows {
        let done = ends(alloc, "check --with f", *case, *status, "", *left);
        assert!(rt; done.unwrap_or(false), "{status:?}");
    }
}

// A fault of the file comes before the input is read, and one of the input before the two are compared.
#[test]
fn refuses_programs(rt: HostRuntime) {
    let alloc = rt.alloc();
    let one = "OPENQASM 2.0;\nqreg q[1];";
    let two = "OPENQASM 2.0;\nqreg q[2];";
    let seven = "OPENQASM 2.0;\nqreg q[7];";
    let many = "OPENQASM 2.0;\nqreg q[65];";
    let wrong = "OPENQASM 2.0;\nqreg q[1];\nrz(pi/512) q[0];";
    let input = 1;
    let file = 2;
    let fine = QasmFault::Angle(AngleFault::NotMultiple { place: 28 });
    let empty = QasmFault::Syntax { place: 0 };
    let rows = [
        (programs(one, two), Status::Shapes { input, file }, 0),
        (programs(seven, seven), Status::Limit(Which::CheckQubits), 0),
        (programs(one, ""), Status::FileQasm(empty), one.len()),
        (programs(wrong, wrong), Status::FileQasm(fine), wrong.len()),
        (programs(wrong, two), Status::Qasm(fine), 0),
        (
            programs(one, many),
            Status::Limit(Which::ProgramQubits),
            one.len(),
        ),
        (programs(many, one), Status::Limit(Which::ProgramQubits), 0),
    ];
    refuses(&rt, alloc, &rows);
}

// A shelf that fails ends the command before the input is read; an input may fail once the file's program is there.
#[test]
fn fails_where_the_outside_does(rt: HostRuntime) -> Result<(), Fail> {
    let alloc = rt.alloc();
    let one = "OPENQASM 2.0;\nqreg q[1];";
    let shelf_stops = &[3];
    let shelf = Case {
        shelf_stops,
        ..programs(one, one)
    };
    let input_stops = &[3];
    let input = Case {
        input_stops,
        ..programs(one, one)
    };
    let wrong_file = Case {
        input_stops,
        ..programs(one, "")
    };
    let empty = QasmFault::Syntax { place: 0 };
    let rows = [
        (shelf, Status::ShelfFault, one.len()),
        (input, Status::ReadFault, one.len() - 3),
        (wrong_file, Status::FileQasm(empty), one.len()),
    ];
    refuses(&rt, alloc, &rows);
    let case = programs(one, one);
    let missing = ends(alloc, "check --with g", case, Status::NoFile, "", one.len());
    assert!(rt; missing?);
    Ok(())
}

// A program on one qubit with so many H and so many X.
fn long_program(alloc: Global, halves: usize, flips: usize) -> Result<String, AllocError> {
    let mut text = String::from_str(alloc, "OPENQASM 2.0;\nqreg q[1];\n")?;
    for _ in 0..halves {
        text.push_str("h q[0];")?;
    }
    for _ in 0..flips {
        text.push_str("x q[0];")?;
    }
    Ok(text)
}

// Whether a program with so many H and so many X, and the empty one on one qubit, are compared so.
fn long_ends(
    alloc: Global,
    halves: usize,
    flips: usize,
    status: Status,
    text: &str,
) -> Result<bool, AllocError> {
    let long = long_program(alloc, halves, flips)?;
    let case = programs(long.as_str(), "OPENQASM 2.0;\nqreg q[1];\nx q[0];");
    ends(alloc, "check --with f", case, status, text, 0)
}

// Both programs count: the other one has one gate, which is X.
#[test]
fn compares_up_to_its_limits(rt: HostRuntime) -> Result<(), Fail> {
    let alloc = rt.alloc();
    let halves = Status::Limit(Which::CheckHalves);
    let gates = Status::Limit(Which::CheckGates);
    assert!(rt; long_ends(alloc, 120, 1, Status::Ok, "equivalent\n")?);
    assert!(rt; long_ends(alloc, 121, 4000, halves, "")?);
    assert!(rt; long_ends(alloc, 0, 3999, Status::Ok, "equivalent\n")?);
    assert!(rt; long_ends(alloc, 0, 4000, gates, "")?);
    Ok(())
}
