//! What stands around a node.
ghost use Rattle.std.specs.Prelude.{◌≡◌};
ghost use Rattle.zw_def_syntax.specs.Places as d;
ghost use Rattle.zw_places.specs.Place.{place_seen};

/// What stands around a node.
#[derive(Clone, Copy)]
pub(crate) struct Place {
    /// A method's body, however far out.
    pub in_method: bool,
    /// A loop's body, with no class, module or method body between.
    pub in_loop: bool,
    /// A class or module body.
    pub in_class: bool,
}

impl Place {
    /// Where the statements of a program stand.
    pub(crate) fn top() -> Place
        ensures { place_seen result ≡ d.at_top }
    {
        Place {
            in_method: false,
            in_loop: false,
            in_class: false,
        }
    }

    /// The body of a loop that stands here.
    pub(crate) fn loop_body(self) -> Place
        ensures { place_seen result ≡ d.loop_body (place_seen self) }
    {
        Place {
            in_loop: true,
            ..self
        }
    }

    /// The defaults and the body of a method that stands here.
    pub(crate) fn method_body(self) -> Place
        ensures { place_seen result ≡ d.method_body (place_seen self) }
    {
        Place {
            in_method: true,
            in_loop: false,
            ..self
        }
    }

    /// The body of a class or module that stands here.
    pub(crate) fn class_body(self) -> Place
        ensures { place_seen result ≡ d.class_body (place_seen self) }
    {
        Place {
            in_loop: false,
            in_class: true,
            ..self
        }
    }
}
