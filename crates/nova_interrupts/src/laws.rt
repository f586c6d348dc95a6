ghost use Rattle.nova_interrupts.specs.Laws.{ZeroIsNoRequest};

/// The law that an acknowledge answers 0 exactly where no device asks: no device has the code 0.
pub fn zero_is_no_request()
    ensures { ZeroIsNoRequest }
{}
