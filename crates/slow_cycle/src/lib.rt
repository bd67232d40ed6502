// The slow reader, which follows the figures of the standard: a cash letter calls for a bundle, a bundle for an item, and whatever closes one calls
// for the next, each with fewer bytes left. Each function stands at the record that it is named for. It enters the record, which judges it alone and
// against those before it, and calls for what the figures show behind it. A record that it does not call for has no place there.
// The names are the standard's, cut short. `own_` is what stands directly in a cash letter: a credit of its own, with its views, which Figure 1c
// leaves out "in order to enhance clarity".
// Stays: what `enter` gives is matched on and not handed up by `?`. So a call takes 800 to 1,264 bytes of the stack: a frame of 744 to 1,208, six registers and
// the return address. With `?` the frame alone took 1,000 to 1,704, by which the longest files pass the one MiB that is enough for every file
// (tests/tests/slow_stack.rs).
// Stays: each function matches on the type that is called for and calls the function of that record. That is the form that request 12 names: a function
// for each box of the figures, which call each other in a cycle with fewer bytes left at each call.
#![tactic(auto)]

ghost use Rattle.std.specs.Prelude.{◌≡◌, true, false, ◌≤◌, length};
ghost use Rattle.text.specs.CharacterSet.{set_of};
ghost use Rattle.slow_step.specs.Places.{IsAnswer, Called};

use passes::Answer;
use slow_step::{enter, not_called_for};
use standing::Standing;
use text::CharacterSet;

// File Header (01), clause 7, Figure 1: a file header calls for the first cash letter.
fn file_header(set: CharacterSet, file: &[u8], s: Standing, at: usize) -> Answer
    requires { Called set file.now s at false 1 }
    ensures { IsAnswer set file.now result }
{
    match enter(set, file, s, 1, at) {
        Err(refusal) => Err(refusal),
        Ok((here, next, called)) => match called {
            Some(10) => letter(set, file, here, next),
            _ => not_called_for(set, file, here, next),
        },
    }
}

// Cash Letter Header (10), clause 8, Figures 1 and 2: a cash letter calls for a bundle, for a credit of its own, or, with no detail, for its control.
#[cycle(arranging)]
fn letter(set: CharacterSet, file: &[u8], s: Standing, at: usize) -> Answer
    requires { Called set file.now s at false 10 }
    ensures { IsAnswer set file.now result }
{
    match enter(set, file, s, 10, at) {
        Err(refusal) => Err(refusal),
        Ok((here, next, called)) => match called {
            Some(20) => bundle(set, file, here, next),
            Some(61) => own_credit(set, file, here, next),
            Some(90) => letter_control(set, file, here, next),
            _ => not_called_for(set, file, here, next),
        },
    }
}

// Bundle Header (20), clause 9, Figures 1a and 1b: a bundle calls for the first item: a check, a return or a credit.
#[cycle(arranging)]
fn bundle(set: CharacterSet, file: &[u8], s: Standing, at: usize) -> Answer
    requires { Called set file.now s at false 20 }
    ensures { IsAnswer set file.now result }
{
    match enter(set, file, s, 20, at) {
        Err(refusal) => Err(refusal),
        Ok((here, next, called)) => match called {
            Some(25) => check(set, file, here, next),
            Some(31) => returned(set, file, here, next),
            Some(61) => credit(set, file, here, next),
            _ => not_called_for(set, file, here, next),
        },
    }
}

// Check Detail (25), clause 10, Figure 1a: a check calls for its addenda and views, and what closes it for the next check, a credit or the bundle control.
#[cycle(arranging)]
fn check(set: CharacterSet, file: &[u8], s: Standing, at: usize) -> Answer
    requires { Called set file.now s at true 25 }
    ensures { IsAnswer set file.now result }
{
    match enter(set, file, s, 25, at) {
        Err(refusal) => Err(refusal),
        Ok((here, next, called)) => match called {
            Some(26) => check_a(set, file, here, next),
            Some(27) => check_b(set, file, here, next),
            Some(28) => check_c(set, file, here, next),
            Some(50) => view(set, file, here, next),
            Some(25) => check(set, file, here, next),
            Some(61) => credit(set, file, here, next),
            Some(70) => bundle_control(set, file, here, next),
            _ => not_called_for(set, file, here, next),
        },
    }
}

// Check Detail Addendum A (26), clause 11: it calls for more of them, for B and C, and for what a check calls for behind its addenda.
#[cycle(arranging)]
fn check_a(set: CharacterSet, file: &[u8], s: Standing, at: usize) -> Answer
    requires { Called set file.now s at true 26 }
    ensures { IsAnswer set file.now result }
{
    match enter(set, file, s, 26, at) {
        Err(refusal) => Err(refusal),
        Ok((here, next, called)) => match called {
            Some(26) => check_a(set, file, here, next),
            Some(27) => check_b(set, file, here, next),
            Some(28) => check_c(set, file, here, next),
            Some(50) => view(set, file, here, next),
            Some(25) => check(set, file, here, next),
            Some(61) => credit(set, file, here, next),
            Some(70) => bundle_control(set, file, here, next),
            _ => not_called_for(set, file, here, next),
        },
    }
}

// Check Detail Addendum B (27), clause 12: there is one, and C may follow.
#[cycle(arranging)]
fn check_b(set: CharacterSet, file: &[u8], s: Standing, at: usize) -> Answer
    requires { Called set file.now s at true 27 }
    ensures { IsAnswer set file.now result }
{
    match enter(set, file, s, 27, at) {
        Err(refusal) => Err(refusal),
        Ok((here, next, called)) => match called {
            Some(28) => check_c(set, file, here, next),
            Some(50) => view(set, file, here, next),
            Some(25) => check(set, file, here, next),
            Some(61) => credit(set, file, here, next),
            Some(70) => bundle_control(set, file, here, next),
            _ => not_called_for(set, file, here, next),
        },
    }
}

// Check Detail Addendum C (28), clause 13: it calls for more of them, for views, or for the next item.
#[cycle(arranging)]
fn check_c(set: CharacterSet, file: &[u8], s: Standing, at: usize) -> Answer
    requires { Called set file.now s at true 28 }
    ensures { IsAnswer set file.now result }
{
    match enter(set, file, s, 28, at) {
        Err(refusal) => Err(refusal),
        Ok((here, next, called)) => match called {
            Some(28) => check_c(set, file, here, next),
            Some(50) => view(set, file, here, next),
            Some(25) => check(set, file, here, next),
            Some(61) => credit(set, file, here, next),
            Some(70) => bundle_control(set, file, here, next),
            _ => not_called_for(set, file, here, next),
        },
    }
}

// Return (31), clause 14, Figure 1b: a returned item calls for its addenda A, and for the B that it must have.
#[cycle(arranging)]
fn returned(set: CharacterSet, file: &[u8], s: Standing, at: usize) -> Answer
    requires { Called set file.now s at true 31 }
    ensures { IsAnswer set file.now result }
{
    match enter(set, file, s, 31, at) {
        Err(refusal) => Err(refusal),
        Ok((here, next, called)) => match called {
            Some(32) => return_a(set, file, here, next),
            Some(33) => return_b(set, file, here, next),
            _ => not_called_for(set, file, here, next),
        },
    }
}

// Return Addendum A (32), clause 15: it calls for more of them, or for B.
#[cycle(arranging)]
fn return_a(set: CharacterSet, file: &[u8], s: Standing, at: usize) -> Answer
    requires { Called set file.now s at true 32 }
    ensures { IsAnswer set file.now result }
{
    match enter(set, file, s, 32, at) {
        Err(refusal) => Err(refusal),
        Ok((here, next, called)) => match called {
            Some(32) => return_a(set, file, here, next),
            Some(33) => return_b(set, file, here, next),
            _ => not_called_for(set, file, here, next),
        },
    }
}

// Return Addendum B (33), clause 16: behind it come C and D, views, or the next item.
#[cycle(arranging)]
fn return_b(set: CharacterSet, file: &[u8], s: Standing, at: usize) -> Answer
    requires { Called set file.now s at true 33 }
    ensures { IsAnswer set file.now result }
{
    match enter(set, file, s, 33, at) {
        Err(refusal) => Err(refusal),
        Ok((here, next, called)) => match called {
            Some(34) => return_c(set, file, here, next),
            Some(35) => return_d(set, file, here, next),
            Some(50) => view(set, file, here, next),
            Some(31) => returned(set, file, here, next),
            Some(61) => credit(set, file, here, next),
            Some(70) => bundle_control(set, file, here, next),
            _ => not_called_for(set, file, here, next),
        },
    }
}

// Return Addendum C (34), clause 17: there is one, and D may follow.
#[cycle(arranging)]
fn return_c(set: CharacterSet, file: &[u8], s: Standing, at: usize) -> Answer
    requires { Called set file.now s at true 34 }
    ensures { IsAnswer set file.now result }
{
    match enter(set, file, s, 34, at) {
        Err(refusal) => Err(refusal),
        Ok((here, next, called)) => match called {
            Some(35) => return_d(set, file, here, next),
            Some(50) => view(set, file, here, next),
            Some(31) => returned(set, file, here, next),
            Some(61) => credit(set, file, here, next),
            Some(70) => bundle_control(set, file, here, next),
            _ => not_called_for(set, file, here, next),
        },
    }
}

// Return Addendum D (35), clause 18: it calls for more of them, for views, or for the next item.
#[cycle(arranging)]
fn return_d(set: CharacterSet, file: &[u8], s: Standing, at: usize) -> Answer
    requires { Called set file.now s at true 35 }
    ensures { IsAnswer set file.now result }
{
    match enter(set, file, s, 35, at) {
        Err(refusal) => Err(refusal),
        Ok((here, next, called)) => match called {
            Some(35) => return_d(set, file, here, next),
            Some(50) => view(set, file, here, next),
            Some(31) => returned(set, file, here, next),
            Some(61) => credit(set, file, here, next),
            Some(70) => bundle_control(set, file, here, next),
            _ => not_called_for(set, file, here, next),
        },
    }
}

// Image View Detail (50), clause 21: a view calls for its data.
#[cycle(arranging)]
fn view(set: CharacterSet, file: &[u8], s: Standing, at: usize) -> Answer
    requires { Called set file.now s at true 50 }
    ensures { IsAnswer set file.now result }
{
    match enter(set, file, s, 50, at) {
        Err(refusal) => Err(refusal),
        Ok((here, next, called)) => match called {
            Some(52) => view_data(set, file, here, next),
            _ => not_called_for(set, file, here, next),
        },
    }
}

// Image View Data (52), clause 22: the data calls for its analysis, for the next view of the item, or for what follows an item.
#[cycle(arranging)]
fn view_data(set: CharacterSet, file: &[u8], s: Standing, at: usize) -> Answer
    requires { Called set file.now s at true 52 }
    ensures { IsAnswer set file.now result }
{
    match enter(set, file, s, 52, at) {
        Err(refusal) => Err(refusal),
        Ok((here, next, called)) => match called {
            Some(50) => view(set, file, here, next),
            Some(54) => analysis(set, file, here, next),
            Some(25) => check(set, file, here, next),
            Some(31) => returned(set, file, here, next),
            Some(61) => credit(set, file, here, next),
            Some(70) => bundle_control(set, file, here, next),
            _ => not_called_for(set, file, here, next),
        },
    }
}

// Image View Analysis (54), clause 23: it closes its view.
#[cycle(arranging)]
fn analysis(set: CharacterSet, file: &[u8], s: Standing, at: usize) -> Answer
    requires { Called set file.now s at true 54 }
    ensures { IsAnswer set file.now result }
{
    match enter(set, file, s, 54, at) {
        Err(refusal) => Err(refusal),
        Ok((here, next, called)) => match called {
            Some(50) => view(set, file, here, next),
            Some(25) => check(set, file, here, next),
            Some(31) => returned(set, file, here, next),
            Some(61) => credit(set, file, here, next),
            Some(70) => bundle_control(set, file, here, next),
            _ => not_called_for(set, file, here, next),
        },
    }
}

// Credit/Reconciliation (61), clause 26, Figure 1c: a credit in a bundle calls for its views, or for what follows an item.
#[cycle(arranging)]
fn credit(set: CharacterSet, file: &[u8], s: Standing, at: usize) -> Answer
    requires { Called set file.now s at true 61 }
    ensures { IsAnswer set file.now result }
{
    match enter(set, file, s, 61, at) {
        Err(refusal) => Err(refusal),
        Ok((here, next, called)) => match called {
            Some(50) => view(set, file, here, next),
            Some(61) => credit(set, file, here, next),
            Some(25) => check(set, file, here, next),
            Some(31) => returned(set, file, here, next),
            Some(70) => bundle_control(set, file, here, next),
            _ => not_called_for(set, file, here, next),
        },
    }
}

// Bundle Control (70), clause 31: it closes its bundle and calls for the next one, for a credit of the cash letter's own, or for its control.
#[cycle(arranging)]
fn bundle_control(set: CharacterSet, file: &[u8], s: Standing, at: usize) -> Answer
    requires { Called set file.now s at true 70 }
    ensures { IsAnswer set file.now result }
{
    match enter(set, file, s, 70, at) {
        Err(refusal) => Err(refusal),
        Ok((here, next, called)) => match called {
            Some(20) => bundle(set, file, here, next),
            Some(61) => own_credit(set, file, here, next),
            Some(90) => letter_control(set, file, here, next),
            _ => not_called_for(set, file, here, next),
        },
    }
}

// Credit/Reconciliation (61), clause 26, Figure 1c: a credit directly in a cash letter calls for its views, the next credit, a bundle, or the cash letter control.
#[cycle(arranging)]
fn own_credit(set: CharacterSet, file: &[u8], s: Standing, at: usize) -> Answer
    requires { Called set file.now s at false 61 }
    ensures { IsAnswer set file.now result }
{
    match enter(set, file, s, 61, at) {
        Err(refusal) => Err(refusal),
        Ok((here, next, called)) => match called {
            Some(50) => own_view(set, file, here, next),
            Some(61) => own_credit(set, file, here, next),
            Some(20) => bundle(set, file, here, next),
            Some(90) => letter_control(set, file, here, next),
            _ => not_called_for(set, file, here, next),
        },
    }
}

// Image View Detail (50), clause 21: a view of such a credit calls for its data.
#[cycle(arranging)]
fn own_view(set: CharacterSet, file: &[u8], s: Standing, at: usize) -> Answer
    requires { Called set file.now s at false 50 }
    ensures { IsAnswer set file.now result }
{
    match enter(set, file, s, 50, at) {
        Err(refusal) => Err(refusal),
        Ok((here, next, called)) => match called {
            Some(52) => own_data(set, file, here, next),
            _ => not_called_for(set, file, here, next),
        },
    }
}

// Image View Data (52), clause 22: behind it come its analysis, the next view, or what follows such a credit.
#[cycle(arranging)]
fn own_data(set: CharacterSet, file: &[u8], s: Standing, at: usize) -> Answer
    requires { Called set file.now s at false 52 }
    ensures { IsAnswer set file.now result }
{
    match enter(set, file, s, 52, at) {
        Err(refusal) => Err(refusal),
        Ok((here, next, called)) => match called {
            Some(50) => own_view(set, file, here, next),
            Some(54) => own_analysis(set, file, here, next),
            Some(61) => own_credit(set, file, here, next),
            Some(20) => bundle(set, file, here, next),
            Some(90) => letter_control(set, file, here, next),
            _ => not_called_for(set, file, here, next),
        },
    }
}

// Image View Analysis (54), clause 23: it closes the view of such a credit.
#[cycle(arranging)]
fn own_analysis(set: CharacterSet, file: &[u8], s: Standing, at: usize) -> Answer
    requires { Called set file.now s at false 54 }
    ensures { IsAnswer set file.now result }
{
    match enter(set, file, s, 54, at) {
        Err(refusal) => Err(refusal),
        Ok((here, next, called)) => match called {
            Some(50) => own_view(set, file, here, next),
            Some(61) => own_credit(set, file, here, next),
            Some(20) => bundle(set, file, here, next),
            Some(90) => letter_control(set, file, here, next),
            _ => not_called_for(set, file, here, next),
        },
    }
}

// Cash Letter Control (90), clause 34: it closes its cash letter and calls for the next one, or for the file control.
#[cycle(arranging)]
fn letter_control(set: CharacterSet, file: &[u8], s: Standing, at: usize) -> Answer
    requires { Called set file.now s at false 90 }
    ensures { IsAnswer set file.now result }
{
    match enter(set, file, s, 90, at) {
        Err(refusal) => Err(refusal),
        Ok((here, next, called)) => match called {
            Some(10) => letter(set, file, here, next),
            Some(99) => file_control(set, file, here, next),
            _ => not_called_for(set, file, here, next),
        },
    }
}

// File Control (99), clause 35: behind it nothing is called for.
fn file_control(set: CharacterSet, file: &[u8], s: Standing, at: usize) -> Answer
    requires { Called set file.now s at false 99 }
    ensures { IsAnswer set file.now result }
{
    match enter(set, file, s, 99, at) {
        Err(refusal) => Err(refusal),
        Ok((here, next, _)) => not_called_for(set, file, here, next),
    }
}

// The answer to a file of up to 65,536 bytes, whatever the table: at its start a file header is called for.
pub fn answer(set: CharacterSet, file: &[u8]) -> Answer
    requires { (set ≡ set_of file.now) × (length file.now ≤ 65_536) }
    ensures { IsAnswer set file.now result }
{
    let s = slow_figures::start();
    match slow_step::type_at(set, file, 0) {
        Some(1) => file_header(set, file, s, 0),
        _ => not_called_for(set, file, s, 0),
    }
}
