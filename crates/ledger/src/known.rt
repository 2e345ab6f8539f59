// A request whose kind is known.
ghost use Rattle.std.specs.Prelude.{◌≡◌};
ghost use Rattle.rules.specs.Kinds.{kind_code};

use checks::request::Request;
use rules::Kind;

#[derive(Clone, Copy)]
pub struct Known<'a> {
    pub kind: Kind,
    pub request: Request<'a>,
    ghost code: { kind_code kind ≡ request.action.kind },
}
