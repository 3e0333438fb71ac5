// The form, number by number: thirteen numbers at the head, then per bucket its key count and hashes. None is an error of form.
ghost use Rattle.std.specs.Prelude.{◌≡◌};
ghost use Rattle.list_input.specs.Scan.{head_step, body_step, form_step, form_ends};

use crate::{FLAG, Form, HEAD};

// One of the thirteen numbers at the head. The fifth, the bump flag, is 0 or 1; the last is the number of buckets to come.
#[tactic(auto, unfolding(crate::specs::Scan::head_step, crate::specs::Scan::flag_fits))]
fn head_step(head: usize, v: u64) -> Option<Form>
    ensures { result ≡ head_step head v }
{
    if head == FLAG && v > 1 {
        return None;
    }
    if head < HEAD - 1 {
        return Some(Form::Head(head + 1));
    }
    Some(Form::Groups {
        keys: 0,
        buckets: v,
    })
}

// A hash, or the next bucket's key count, or left over.
#[tactic(auto, unfolding(crate::specs::Scan::body_step))]
fn body_step(keys: u64, buckets: u64, v: u64) -> Option<Form>
    ensures { result ≡ body_step keys buckets v }
{
    match (keys, buckets) {
        (0, 0) => None,
        (0, _) => Some(Form::Groups {
            keys: v,
            buckets: buckets - 1,
        }),
        _ => Some(Form::Groups {
            keys: keys - 1,
            buckets,
        }),
    }
}

// One more number.
#[tactic(auto, unfolding(crate::specs::Scan::form_step))]
pub fn form_step(form: Form, v: u64) -> Option<Form>
    ensures { result ≡ form_step form v }
{
    match form {
        Form::Head(head) => head_step(head, v),
        Form::Groups { keys, buckets } => body_step(keys, buckets, v),
    }
}

// No error so far, and nothing still to come.
#[tactic(auto, unfolding(crate::specs::Scan::form_ends))]
pub fn form_ends(form: Option<Form>) -> bool
    ensures { result ≡ form_ends form }
{
    matches!(
        form,
        Some(Form::Groups {
            keys: 0,
            buckets: 0
        })
    )
}
