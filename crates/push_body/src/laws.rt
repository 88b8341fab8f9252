//! What a JSON reader finds in the bodies. The statements stand in `specs/ReadBack.antt`.
ghost use Rattle.push_body.specs.ReadBack.{PushReadsBack, PullReadsBack};

/// A body is read back as what was put in: its bytes are UTF-8 and one JSON text, nested at most 127
/// deep, whose value is an object with just five fields. A push has the mutations in order, each an
/// object with its five fields, and a pull has the cookie. There is nothing to run: the contract is the
/// statement.
///
/// Asked of a push: texts that are UTF-8, and arguments that are a `Json`'s text, as the types keep
/// them. Asked of a pull: a cookie that its own text reads as, as the type keeps it.
pub fn bodies_read_back()
    ensures push { PushReadsBack }
    ensures pull { PullReadsBack }
{}
