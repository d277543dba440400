//! Laws of all messages.
ghost use Rattle.std.specs.Prelude.{◌≡◌, ◌+◌, ◌≤◌, ℕ, length};
ghost use Rattle.proof_form.specs.Proofs.{Proof};
ghost use Rattle.wire_frames.specs.declared.limits.TheConstants.{MAX_FRAME_BYTES, OUTBOX_BYTES};
ghost use Rattle.wire_frames.specs.Frames.{frame_spelling};
ghost use Rattle.wire_messages.specs.declared.message.TheConstants.{MAX_ANSWER_BYTES};
ghost use Rattle.wire_messages.specs.Messages.{Message, sync, answer, MessageFits, FindsRoom, message_spelling};

/// A message has one spelling, and each spelling has one message.
pub fn one_spelling_of_a_message()
    ensures { (a b : Message) → MessageFits a → MessageFits b
        → message_spelling a ≡ message_spelling b → a ≡ b }
{}

/// Each message finds room in a frame, an extension where its bytes do; and with its frame in an outbox, behind the
/// frame of a Sync.
pub fn messages_find_room()
    ensures frame { (message : Message) → MessageFits message → FindsRoom message
        → length (message_spelling message) ≤ MAX_FRAME_BYTES }
    ensures answer { (id : ℕ) → (proof : Proof) → MessageFits (answer id proof)
        → length (message_spelling (answer id proof)) ≤ MAX_ANSWER_BYTES }
    ensures outbox { (fork blocks : ℕ) → (message : Message)
        → MessageFits message → FindsRoom message
        → length (frame_spelling (message_spelling (sync fork blocks)))
        + length (frame_spelling (message_spelling message)) ≤ OUTBOX_BYTES }
{}
