use dr_base::Text;
use dr_patterns::{Patterns, runs_joined};
use dr_places::fits_by_places;
use std::alloc::{AllocError, Global};
use std::test::Fail;

fn patterns(alloc: Global) -> Result<Patterns, Fail> {
    let spelled = [
        Text::from_str(alloc, "start%")?,
        Text::from_str(alloc, "%end")?,
        Text::from_str(alloc, "%part%")?,
        Text::from_str(alloc, "word")?,
        Text::from_str(alloc, "l_tter")?,
    ];
    Ok(Patterns::of(alloc, &spelled)?)
}

// Whether a text fits one of some patterns.
const HELD: [(&str, bool); 12] = [
    ("start", true),
    ("started", true),
    ("a start", false),
    ("weekend", true),
    ("ending", false),
    ("apartment", true),
    ("par", false),
    ("word", true),
    ("words", false),
    ("letter", true),
    ("litter", true),
    ("ltter", false),
];

// Which place in the list is told otherwise, the length of the list where none is.
fn first_other(patterns: &Patterns) -> usize {
    for (place, (text, expected)) in HELD.iter().enumerate() {
        if patterns.hold(text) != *expected {
            return place;
        }
    }
    HELD.len()
}

#[test]
fn patterns_and_their_copy_hold_texts_by_their_table(rt: HostRuntime) -> Result<(), Fail> {
    let patterns = patterns(rt.alloc())?;
    let copy = patterns.copy()?;
    assert!(rt; first_other(&patterns) == 12);
    assert!(rt; first_other(&copy) == 12);
    Ok(())
}

// Patterns, and what is left of them where a run behind a run is left out.
const JOINED: [(&str, &str); 9] = [
    ("", ""),
    ("ab_", "ab_"),
    ("%", "%"),
    ("%%", "%"),
    ("%%%é", "%é"),
    ("é%%%", "é%"),
    ("a%%b%%%_%%c", "a%b%_%c"),
    ("%a%b%", "%a%b%"),
    ("%%_%%%%_%", "%_%_%"),
];

// Which place in the list is told otherwise, the length of the list where none is.
fn first_other_joined(alloc: Global) -> Result<usize, AllocError> {
    for (place, (pattern, expected)) in JOINED.iter().enumerate() {
        let joined = runs_joined(alloc, pattern)?;
        if joined.as_str() != *expected {
            return Ok(place);
        }
    }
    Ok(JOINED.len())
}

#[test]
fn runs_that_follow_each_other_are_one(rt: HostRuntime) -> Result<(), Fail> {
    assert!(rt; first_other_joined(rt.alloc())? == JOINED.len());
    Ok(())
}

// 275 characters, whose places fill several words; some are of two, three and four bytes.
const LONG: &str =
    "ein Müller zählt 7 Äpfel; und 😀 lacht. a_b 100% naïve aabcaabc 日本 ein Müller zählt 7 Äpfel; und 😀 lacht. a_b 100% naïve aabcaabc 日本 ein Müller zählt 7 Äpfel; und 😀 lacht. a_b 100% naïve aabcaabc 日本 ein Müller zählt 7 Äpfel; und 😀 lacht. a_b 100% naïve aabcaabc 日本 ein Müller ";

// Whether the long text fits a pattern, by the regular expressions of another language.
const FITTED: [(&str, bool); 30] = [
    ("%", true),
    ("%%", true),
    (
        "___________________________________________________________________________________________________________________________________________________________________________________________________________________________________________________________________________________",
        true,
    ),
    (
        "__________________________________________________________________________________________________________________________________________________________________________________________________________________________________________________________________________________",
        false,
    ),
    (
        "_%_%________________________________________________________________________________________________________________________________________________________________________________________________________________________________________________________________________________",
        true,
    ),
    (
        "%b_ _本_e_n_M_l_e_ _ä_l_ _ _p_e_;_u_d_😀_l_c_t_ ___ _0___n_ï_e_a_b_a_b_ _本_e_n_M_l_e_ _ä_l_ _ _p_e_;_u_d_😀_l_c_t_ ___ _0___n_ï_e_a_b_a_b_ _本_e_%",
        true,
    ),
    (
        "%b_ _本_e_n_M_l_e_ _ä_l_ _ _p_e_;_u_d_😀_l_c_t_ ___ _0___n_ï_e_a_b_a_b_ _本_e_n_M_l_e_ _ä_l_ _ _p_e_;_u_d_😀_l_c_t_ ___ _0___n_ï_e_a_b_a_b_ _本_eq%",
        false,
    ),
    ("ein%M_ller%", true),
    ("%M_ller%", true),
    ("%😀%😀%😀%😀%", true),
    ("%😀%😀%😀%😀%😀%", false),
    ("%_😀_l%Ä_fel;%日本%", true),
    ("%Apfel%", false),
    ("%aab_aabd%", false),
    ("%aab_aabc%", true),
    ("%a_bca_bc%caabc 日本 ein Müller ", true),
    ("%a_bca_bc%caabc 日本 ein Müller", false),
    (
        "%_ler zählt 7 Äpfel; und 😀 lacht. a_b 100% naïve aabcaabc 日本 ein Müller_",
        true,
    ),
    (
        "ein Müller zählt 7 Äpfel; und 😀 lacht. a_b 100% naïve aabcaabc 日本%xhlt 7 Äpfel; und 😀 lacht. a_b 100% naïve aabcaabc 日本 ein Müller ",
        false,
    ),
    ("e%_l%%_l%.%", true),
    ("%本_", false),
    ("%本 ", false),
    (
        "%日_______________________________________________________________%",
        true,
    ),
    (
        "%________________________________________________________________😀%",
        true,
    ),
    (
        "%😀________________________________________________________________________________________________________________________________________________________________________________________________________%",
        true,
    ),
    ("%naïve aabcaabc 日本 ein%", true),
    ("%nai_e%", false),
    ("", false),
    ("%Ł%", false),
    ("%乥%", false),
];

// Which place in the list is told otherwise, the length of the list where none is.
fn first_other_place(alloc: Global) -> Result<usize, AllocError> {
    for (place, (pattern, expected)) in FITTED.iter().enumerate() {
        if fits_by_places(alloc, pattern, LONG)? != *expected {
            return Ok(place);
        }
    }
    Ok(FITTED.len())
}

#[test]
fn a_text_of_several_words_fits_patterns_by_their_table(rt: HostRuntime) -> Result<(), Fail> {
    assert!(rt; first_other_place(rt.alloc())? == FITTED.len());
    Ok(())
}
