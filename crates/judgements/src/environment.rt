// The types of the variables, by value: a body gets a copy with one type replaced, and the caller keeps its own.
ghost use Rattle.std.specs.Prelude.{◌≡◌, ◌<◌};
ghost use Rattle.ocl.specs.Types.{Class};
ghost use Rattle.ocl.specs.Environment.{extend, start};
ghost use Rattle.ocl.specs.Typing.{bound_type};
ghost use Rattle.types.specs.Flat.{ty_of};
ghost use Rattle.judgements.specs.Replies.{meaning, env_of};

use super::TypeEnv;
use memory::refusals::{Refusal, Refused};
use types::parts::plain;
use types::{Base, FlatType};

// Variable i: its type where it is bound, else 9.
pub fn bound(n: u64, i: usize, env: TypeEnv) -> Result<FlatType, Refused>
    requires { i < 16 }
    ensures { meaning result ≡ bound_type n (env_of env i) }
{
    if env.bound[i] {
        return Ok(env.types[i]);
    }
    Err(Refusal::LooseEnd.at(n))
}

// The environment with variable i of type t.
pub fn bind(env: TypeEnv, i: usize, t: FlatType) -> TypeEnv
    requires { i < 16 }
    ensures { env_of result ≡ extend (env_of env) i (ty_of t) }
{
    let mut inner = env;
    inner.types[i] = t;
    inner.bound[i] = true;
    inner
}

// Nothing bound but `self`, of the context class.
pub fn start_env(context: u8) -> TypeEnv
    ensures { env_of result ≡ start (Class context) }
{
    let none = TypeEnv {
        types: [plain(Base::Void); memory::VARIABLES],
        bound: [false; memory::VARIABLES],
    };
    bind(none, 0, plain(Base::Class(context)))
}
