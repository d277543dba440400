//! Where bytes aren't in their form.
ghost use Rattle.std.specs.Prelude.{◌≡◌};
ghost use Rattle.oplog_form.specs.Form.{bad_of};

use compact_enc::EncFault;

/// The first field of a header or an entry that isn't whole, isn't in its shortest spelling or is out of its range; or
/// bytes that follow the last one.
#[derive(Clone, Copy, Debug, PartialEq, Eq)]
pub struct BadForm {
    /// The place of its first byte, or of the first byte that follows.
    pub at: usize,
}

/// The place of one field's fault.
pub(crate) fn bad_form(fault: EncFault) -> BadForm
    ensures { result ≡ bad_of fault }
{
    match fault {
        EncFault::Short { at } => BadForm { at },
        EncFault::NotShortest { at } => BadForm { at },
        EncFault::TooLarge { at } => BadForm { at },
    }
}
