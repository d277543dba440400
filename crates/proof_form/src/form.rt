//! Why bytes aren't in their form.
ghost use Rattle.std.specs.Prelude.{◌≡◌};
ghost use Rattle.proof_form.specs.Form.{bad_of};

use compact_enc::EncFault;

/// The first field that isn't in its form, of a request, a proof or a message.
#[derive(Clone, Copy, Debug, PartialEq, Eq)]
pub struct BadForm {
    /// The place of its first byte.
    pub at: usize,
    pub why: Bad,
}

/// What is wrong with a field. Each comes only where none before it holds.
#[derive(Clone, Copy, Debug, PartialEq, Eq)]
pub enum Bad {
    /// Fewer bytes are left than it has.
    Short,
    /// A shorter spelling has the number.
    NotShortest,
    /// The number, or the length of the buffer, is above its range.
    TooLarge,
    /// No message has this type.
    Unknown,
    /// The flags name no part, one that there isn't, or parts that don't go together.
    Flags,
    /// A length that isn't above its start, or a number of twigs that isn't that of the cover.
    Count,
    /// A start that isn't a page's first block.
    Page,
    /// Bytes follow the last field.
    Trailing,
}

/// The fault of one field.
pub fn bad_form(fault: EncFault) -> BadForm
    ensures { result ≡ bad_of fault }
{
    match fault {
        EncFault::Short { at } => BadForm {
            at,
            why: Bad::Short,
        },
        EncFault::NotShortest { at } => BadForm {
            at,
            why: Bad::NotShortest,
        },
        EncFault::TooLarge { at } => BadForm {
            at,
            why: Bad::TooLarge,
        },
    }
}
