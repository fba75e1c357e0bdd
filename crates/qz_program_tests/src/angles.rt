//! What the tokens of an angle mean.
use qz_lex::{AngleFault, LexFault, Token, angle, tokens};
use std::alloc::Global;

// The tokens of a short text. It hides their clauses.
fn cut(alloc: Global, text: &str) -> Result<Vec<Token>, LexFault> {
    if text.len() < 1000 {
        tokens(alloc, text.as_bytes())
    } else {
        Err(LexFault::Memory)
    }
}

// What a text means as an angle; none where it has no tokens.
fn meaning(alloc: Global, text: &str) -> Option<Result<u16, AngleFault>> {
    let found = cut(alloc, text).ok()?;
    if found.is_empty() {
        None
    } else {
        Some(angle(&found))
    }
}

// Whether a text is this number of 256ths of pi.
fn is_angle(alloc: Global, text: &str, wanted: u16) -> bool {
    match meaning(alloc, text) {
        Some(Ok(found)) => found == wanted,
        _ => false,
    }
}

// Whether this is the first fault of a text.
fn has_fault(alloc: Global, text: &str, wanted: AngleFault) -> bool {
    match meaning(alloc, text) {
        Some(Err(found)) => found == wanted,
        _ => false,
    }
}

#[test]
fn multiples_of_pi_are_angles(rt: HostRuntime) {
    let wanted = [
        ("(pi+pi)/4", 128),
        ("0", 0),
        ("-pi", 256),
        ("--pi", 256),
        ("2*pi", 0),
        ("pi/256", 1),
        ("5*pi/256", 5),
        ("-255*pi/256", 257),
        ("-pi/4", 448),
        ("3*pi/4", 192),
        ("pi-pi/2-pi/4", 64),
        ("0+pi", 256),
        ("pi*(1/3+2/3)", 256),
        ("(2*pi)/(4*pi)*pi", 128),
    ];
    for (text, number) in &wanted {
        assert!(rt; is_angle(rt.alloc(), text, *number));
    }
}

#[test]
fn angles_have_their_first_fault(rt: HostRuntime) {
    let wanted = [
        ("0.5", AngleFault::Form { place: 0 }),
        ("pi+", AngleFault::Form { place: 3 }),
        ("pi pi", AngleFault::Form { place: 3 }),
        ("(pi", AngleFault::Form { place: 3 }),
        ("pi)", AngleFault::Form { place: 2 }),
        ("()", AngleFault::Form { place: 1 }),
        ("pi/0+", AngleFault::Form { place: 5 }),
        ("pi^2", AngleFault::Form { place: 2 }),
        ("sin(pi)", AngleFault::Form { place: 0 }),
        ("pi +  // more", AngleFault::Form { place: 4 }),
        ("pi/0", AngleFault::ZeroDivisor { place: 2 }),
        ("1/0+1/(pi-pi)", AngleFault::ZeroDivisor { place: 1 }),
        ("2*pi*pi", AngleFault::Kind { place: 4 }),
        ("1+pi", AngleFault::Kind { place: 1 }),
        ("1/pi", AngleFault::Kind { place: 1 }),
        ("1", AngleFault::Kind { place: 0 }),
        ("pi/pi", AngleFault::Kind { place: 0 }),
        ("0*pi+1", AngleFault::Kind { place: 0 }),
        ("999999999999999999*10*pi", AngleFault::Range { place: 18 }),
        ("999999999999999999+1", AngleFault::Kind { place: 0 }),
        ("999999999999999999+1+1", AngleFault::Range { place: 20 }),
        ("pi/999999999999999999/10", AngleFault::Range { place: 21 }),
        ("pi/512", AngleFault::NotMultiple { place: 0 }),
    ];
    for (text, fault) in &wanted {
        assert!(rt; has_fault(rt.alloc(), text, *fault));
    }
}

#[test]
fn thirty_two_levels_are_not_too_deep(rt: HostRuntime) {
    let open = "((((((((((((((((((((((((((((((((";
    let close = "))))))))))))))))))))))))))))))))";
    let signs = "--------------------------------";
    let fits = [open, "pi", close].concat(rt.alloc());
    let nested = [open, "(pi)", close].concat(rt.alloc());
    let pending = [signs, "pi"].concat(rt.alloc());
    let deep = [signs, "-pi"].concat(rt.alloc());
    assert!(rt; matches!(&fits, Ok(text) if is_angle(rt.alloc(), text, 256)));
    assert!(rt;
        matches!(&nested, Ok(text) if has_fault(rt.alloc(), text, AngleFault::Deep { place: 32 }))
    );
    assert!(rt; matches!(&pending, Ok(text) if is_angle(rt.alloc(), text, 256)));
    assert!(rt;
        matches!(&deep, Ok(text) if has_fault(rt.alloc(), text, AngleFault::Deep { place: 32 }))
    );
}
