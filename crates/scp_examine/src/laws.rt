ghost use Rattle.scp_examine.specs.Laws.{DepositPuts, DepositReadsBack, DevicesAreKinds, EveryStateIsMachine, RegistersHaveNames};

/// The law that a register, of the processor or of a device, is printed by the name that a command names it by.
pub fn registers_are_printed_by_their_names()
    ensures { RegistersHaveNames }
{}

/// The law that every state of a session meets what the laws of DEPOSIT and of SET CPU ask of a machine: nobody has to
/// carry these bounds.
pub fn every_state_is_a_machine()
    ensures { EveryStateIsMachine }
{}

/// The law that a value that was put into a place is what the place then holds.
pub fn deposits_read_back()
    ensures { DepositReadsBack }
{}

/// The law that a DEPOSIT without a fault puts its value into every place of its list, and changes no other place, no
/// event, and neither the time nor the size of memory.
pub fn deposits_change_the_listed_places_alone()
    ensures { DepositPuts }
{}

/// The law that the devices that symbolic text names are the kinds of units, and the multiplier and the processor.
pub fn symbolic_devices_are_the_kinds()
    ensures { DevicesAreKinds }
{}
