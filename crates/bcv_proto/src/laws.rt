//! The laws of messages and answers. Each function does nothing: its clause is the law, for proofs to cite.

ghost use Rattle.bcv_proto.specs.Laws.{TextIsReadBack, OneMessageBegins, NoMessageGoesOn, OneReading, OneAnswerBegins, NoAnswerGoesOn};

/// A message's bytes are read as that message, whatever follows them.
pub fn text_is_read_back()
    ensures { TextIsReadBack }
{}

/// Bytes begin with one message at most, and then go on in one way.
pub fn one_message_begins()
    ensures { OneMessageBegins }
{}

/// No message's bytes are a proper front of another one's.
pub fn no_message_goes_on()
    ensures { NoMessageGoesOn }
{}

/// What stands at the front of an input is fixed by what it is to mean.
pub fn one_reading()
    ensures { OneReading }
{}

/// Bytes begin with one answer's at most, and then go on in one way: an answer is followed by whatever comes next.
pub fn one_answer_begins()
    ensures { OneAnswerBegins }
{}

/// No answer's bytes are a proper front of another one's.
pub fn no_answer_goes_on()
    ensures { NoAnswerGoesOn }
{}
