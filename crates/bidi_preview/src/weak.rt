//! Weak types (UAX #9, 3.3.4 "Resolving Weak Types").
ghost use Rattle.std.specs.Prelude.{◌≡◌, ◌<◌, ◌∷◌, length, drop};
ghost use Rattle.bidi_order.specs.Resolve.{nonspacing_class, separator_class, weak_types, w3, w4, w6};
ghost use Rattle.bidi_preview.specs.WeakSteps.{following_class, leading_class, leading_terminators, letters_resolved};
ghost use Rattle.bidi_preview.specs.WeakSteps.{rest_resolved, side_after, strong_after, w1_class, w2_class, w7_class};

use bidi_class::Class;

/// W1 to W7, in this order, on the classes of a sequence. What goes by the characters before alone is one pass.
#[tactic(auto, using(crate::proofs::WeakPasses::weak_by))]
pub(crate) fn resolve_weak(sos: Class, classes: &mut [Class])
    ensures { classes.new ≡ weak_types sos classes.old }
{
    resolve_letters(sos, classes);
    resolve_separators(classes);
    resolve_leading(classes);
    resolve_rest(sos, classes);
}

/// W1 to W3: NSM takes the class before it, EN becomes AN after AL, and AL becomes R.
fn resolve_letters(sos: Class, classes: &mut [Class])
    ensures { classes.new ≡ letters_resolved sos sos classes.old }
{
    let mut before = sos;
    let mut strong = sos;
    for class in classes.iter_mut() {
        before = w1_class(before, *class);
        *class = w3(w2_class(before, strong));
        strong = strong_after(strong, before);
    }
}

fn w1_class(before: Class, class: Class) -> Class
    ensures { result ≡ w1_class before class }
{
    match class {
        Class::NSM => nonspacing_class(before),
        _ => class,
    }
}

fn nonspacing_class(before: Class) -> Class
    ensures { result ≡ nonspacing_class before }
{
    match before {
        Class::LRI | Class::PDI => Class::ON,
        _ => before,
    }
}

fn w2_class(class: Class, strong: Class) -> Class
    ensures { result ≡ w2_class class strong }
{
    match class {
        Class::EN => match strong {
            Class::AL => Class::AN,
            _ => class,
        },
        _ => class,
    }
}

fn strong_after(strong: Class, class: Class) -> Class
    ensures { result ≡ strong_after strong class }
{
    match class {
        Class::L | Class::R | Class::AL => class,
        _ => strong,
    }
}

fn w3(class: Class) -> Class
    ensures { result ≡ w3 class }
{
    match class {
        Class::AL => Class::R,
        _ => class,
    }
}

/// W4: one separator between two numbers of one class becomes of that class.
fn resolve_separators(classes: &mut [Class])
    ensures { classes.new ≡ w4 Class.ON classes.old }
{
    let mut before = Class::ON;
    for index in 0..classes.len() {
        let class = separator_class(before, classes[index], &classes[index + 1..]);
        classes[index] = class;
        before = class;
    }
}

fn separator_class(before: Class, class: Class, after: &[Class]) -> Class
    ensures { result ≡ separator_class before class after.now }
{
    match after.first() {
        Some(next) => separator_between(before, class, *next, after),
        None => class,
    }
}

/// The separator's class where a character of the class `next` comes first after it.
fn separator_between(before: Class, class: Class, next: Class, after: &[Class]) -> Class
    requires some { 0 < length after.now }
    requires first { after.now ≡ next ∷ drop 1 after.now }
    ensures { result ≡ separator_class before class after.now }
{
    match (before, class, next) {
        (Class::EN, Class::ES | Class::CS, Class::EN) => Class::EN,
        (Class::AN, Class::CS, Class::AN) => Class::AN,
        _ => class,
    }
}

/// W5: terminators before EN become EN.
fn resolve_leading(classes: &mut [Class])
    ensures { classes.new ≡ leading_terminators classes.old }
{
    let mut next = Class::ON;
    let mut index = classes.len();
    while index > 0 {
        index -= 1;
        let class = leading_class(classes[index], next);
        classes[index] = class;
        next = class;
    }
}

fn leading_class(class: Class, next: Class) -> Class
    ensures { result ≡ leading_class class next }
{
    match class {
        Class::ET => match next {
            Class::EN => Class::EN,
            _ => class,
        },
        _ => class,
    }
}

/// W5 to W7: terminators after EN become EN, other separators and terminators ON, and EN becomes L after L.
fn resolve_rest(sos: Class, classes: &mut [Class])
    ensures { classes.new ≡ rest_resolved Class.ON sos classes.old }
{
    let mut before = Class::ON;
    let mut strong = sos;
    for class in classes.iter_mut() {
        before = following_class(*class, before);
        let resolved = w6(before);
        *class = w7_class(resolved, strong);
        strong = side_after(strong, resolved);
    }
}

fn following_class(class: Class, before: Class) -> Class
    ensures { result ≡ following_class class before }
{
    match class {
        Class::ET => match before {
            Class::EN => Class::EN,
            _ => class,
        },
        _ => class,
    }
}

fn w6(class: Class) -> Class
    ensures { result ≡ w6 class }
{
    match class {
        Class::ES | Class::ET | Class::CS => Class::ON,
        _ => class,
    }
}

fn w7_class(class: Class, strong: Class) -> Class
    ensures { result ≡ w7_class class strong }
{
    match class {
        Class::EN => match strong {
            Class::L => Class::L,
            _ => class,
        },
        _ => class,
    }
}

fn side_after(strong: Class, class: Class) -> Class
    ensures { result ≡ side_after strong class }
{
    match class {
        Class::L | Class::R => class,
        _ => strong,
    }
}
