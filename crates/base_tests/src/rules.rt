//! The rules of some languages at their own samples, texts that are rules, and texts that are no rules
//! with the offsets that the grammar gives them.

use crate::languages::{LANGUAGES, Row};
use plural_rules::{Category, OutOfMemory, RuleFault, RuleRefusal, RuleText, Rules};
use std::alloc::{AllocError, Global};

/// A category, a text that is no rule of it, and the offset of its fault.
const FAULTS: &[(Category, &str, u64)] = &[
    (Category::One, "n % 0 = 1", 5),
    (Category::One, "n % 00", 6),
    (Category::One, "n is 1", 2),
    (Category::One, "n in 1..2", 2),
    (Category::One, "n within 1..2", 2),
    (Category::One, "n mod 10 = 1", 2),
    (Category::One, "n = 9007199254740992", 19),
    (Category::One, "n = 1..90071992547409910", 23),
    (Category::One, "k = 1", 0),
    (Category::One, "n = 1 and", 9),
    (Category::One, "n = 1 an", 8),
    (Category::One, "n = 1 a nd n = 2", 7),
    (Category::One, "n = 1 or", 8),
    (Category::One, "", 0),
    (Category::One, " \t\r\n", 4),
    (Category::One, "@integer 1", 0),
    (Category::One, "n ! = 1", 3),
    (Category::One, "n = 1 . . 2", 7),
    (Category::One, "n = 1,", 6),
    (Category::One, "n = 1 2", 6),
    (Category::One, "n = 1\u{a0}or n = 2", 5),
    (Category::One, "nn", 1),
    (Category::Other, "n = 1", 0),
    (Category::Other, " \té", 2),
];

/// Texts that are rules of one, with a number of which each holds and one of which it doesn't.
const RULES: &[(&str, i64, i64)] = &[
    ("n=1andn!=3", 1, 3),
    ("\tn\r\n%\t7 != 1 .. 3 , 5 ", 4, -12),
    ("n = 1 or n = 2 and n = 3", 1, 2),
    ("n = 5..3, 9", 9, 4),
    ("n = 2..4", -4, 5),
    ("n = 0000000000000000000001@", 1, 0),
    ("n = 9007199254740991", 9_007_199_254_740_991, 1),
    ("n % 9007199254740991 = 1024", i64::MIN, 0),
    ("c=0 and e=0 and v=0 and w=0 and f=0 and t=0 and i=7", 7, 8),
];

fn entry(alloc: Global, category: Category, text: &str) -> Result<RuleText, AllocError> {
    Ok(RuleText {
        category,
        text: String::from_str(alloc, text)?,
    })
}

fn one_rule(alloc: Global, category: Category, text: &str) -> Result<Rules, RuleRefusal> {
    let mut entries = Vec::new(alloc);
    entries.push(entry(alloc, category, text)?)?;
    Rules::parse(alloc, &entries)
}

fn language(alloc: Global, rows: &[Row]) -> Result<Rules, RuleRefusal> {
    let mut entries = Vec::new(alloc);
    for (category, text, _) in rows {
        entries.push(entry(alloc, *category, text)?)?;
    }
    Rules::parse(alloc, &entries)
}

#[test]
fn samples_have_their_categories(rt: HostRuntime) -> Result<(), RuleRefusal> {
    for (name, rows) in LANGUAGES {
        let rules = language(rt.alloc(), rows)?.copy(rt.alloc())?;
        for (category, _, numbers) in rows.iter() {
            for n in *numbers {
                assert_eq!(rt; rules.category(*n), *category, "{name} at {n}");
            }
        }
    }
    for (text, holds, fails) in RULES {
        let rules = one_rule(rt.alloc(), Category::One, text)?;
        assert_eq!(rt; rules.category(*holds), Category::One, "{text}");
        assert_eq!(rt; rules.category(*fails), Category::Other, "{text}");
    }
    assert_eq!(rt; Rules::none(rt.alloc()).category(1), Category::Other);
    Ok(())
}

/// The fault of some entries, or `None` where they are accepted.
fn fault_of(alloc: Global, entries: &[RuleText]) -> Result<Option<RuleFault>, OutOfMemory> {
    match Rules::parse(alloc, entries) {
        Ok(_) => Ok(None),
        Err(RuleRefusal::Because(fault)) => Ok(Some(fault)),
        Err(RuleRefusal::OutOfMemory) => Err(OutOfMemory),
    }
}

#[test]
fn faults_have_their_offsets(rt: HostRuntime) -> Result<(), RuleRefusal> {
    for (category, text, at) in FAULTS {
        let mut entries = Vec::new(rt.alloc());
        entries.push(entry(rt.alloc(), *category, text)?)?;
        let fault = RuleFault {
            category: *category,
            at: *at,
        };
        assert_eq!(rt; fault_of(rt.alloc(), &entries)?, Some(fault), "{text}");
    }
    let mut entries = Vec::new(rt.alloc());
    entries.push(entry(rt.alloc(), Category::Two, "n = 2")?)?;
    entries.push(entry(rt.alloc(), Category::Two, "n = 3")?)?;
    entries.push(entry(rt.alloc(), Category::One, "n = 2")?)?;
    let rules = Rules::parse(rt.alloc(), &entries)?;
    assert_eq!(rt; rules.category(2), Category::One);
    assert_eq!(rt; rules.category(3), Category::Other);
    entries.push(entry(rt.alloc(), Category::Few, "n = 4 and")?)?;
    entries.push(entry(rt.alloc(), Category::Many, "x")?)?;
    let fault = RuleFault {
        category: Category::Few,
        at: 9,
    };
    assert_eq!(rt; fault_of(rt.alloc(), &entries)?, Some(fault));
    Ok(())
}
