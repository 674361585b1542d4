// A kind of path value.
ghost use Rattle.std.specs.Prelude.{◌≡◌};
ghost use Rattle.paths.specs.Kind.{PathKind, Laws};

pub trait PathValue: Copy {
    ghost kind: { PathKind Self };

    fn empty() -> Self
        ensures { result ≡ kind.empty };

    fn join(self, other: Self) -> Self
        ensures { result ≡ kind.join self other };

    fn extend(self, slot: u16, price: u64) -> Self
        ensures { result ≡ kind.extend self slot price };

    ghost laws: { Laws kind };
}
