// Where a label list ends.
ghost use Rattle.std.specs.Prelude.{◌≡◌, ◌≤◌, ◌<◌, length, drop};
ghost use Rattle.model.specs.Query as Model;
ghost use Rattle.query.specs.list_ends.Ends.{end_of, end_told};

use operator::Operator;

// The end of n labels that begin at a place.
fn labels_end(s: &[u8], at: usize, n: usize) -> Option<usize>
    requires { at ≤ length s.now }
    ensures { end_told result ≡ end_of (length s.now) (Model.names_in n (drop at s.now)) }
{
    let mut p = at;
    for _ in 0..n {
        let label = fields::field_at(s, p)?;
        if label.start == label.end {
            return None;
        }
        p = label.end;
    }
    Some(p)
}

// The end of the list at the start of the bytes; what follows it is not looked at.
pub(crate) fn list_end(s: &[u8]) -> Option<usize>
    ensures { end_told result ≡ end_of (length s.now) (Model.list_in s.now) }
{
    let [n, ..] = s else {
        return None;
    };
    let n = usize::from(*n);
    if Operator::MAX_LISTED < n {
        return None;
    }
    labels_end(s, 1, n)
}
