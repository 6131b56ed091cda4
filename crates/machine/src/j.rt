// The register J: a location, and whether it is settled. JBUS to itself on an open unit unsettles it, since
// whether it jumped hangs on the times; any other jump that sets J settles it.
#[derive(Clone, Copy, PartialEq, Eq, Debug)]
pub struct J {
    pub location: u16,
    pub settled: bool,
}
