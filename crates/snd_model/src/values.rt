//! The values of a model text: one type for each key, one variant for each group of spellings that mean the same.

ghost use Rattle.std.specs.Prelude.{◌≡◌, map};
ghost use Rattle.snd_model.specs.declared.setting.Setting.TheVariants.{Demand, Link, Capacity, FixedCharge, Routing, Path, Hop, Survivability};
ghost use Rattle.snd_model.specs.Table.{spelling, other_spellings, number_of};

/// Whether a demand has a direction.
#[derive(Clone, Copy, Debug, PartialEq, Eq)]
pub enum DemandModel {
    /// `UNDIRECTED`
    Undirected,
    /// `DIRECTED`: from its source to its target.
    Directed,
}

impl DemandModel {
    /// Its first spelling, and the others.
    pub(crate) fn words(self) -> (&'static [u8], &'static [&'static [u8]])
        ensures first { result.0.now ≡ spelling (Demand self) }
        ensures others { map (λ word. word.now) result.1.now ≡ other_spellings (Demand self) }
    {
        match self {
            DemandModel::Undirected => (b"UNDIRECTED", &[b"UNDIRECTED_DEMANDS"]),
            DemandModel::Directed => (b"DIRECTED", &[b"DIRECTED_DEMANDS"]),
        }
    }

    /// Its number in its row, from 0 on.
    pub(crate) fn number(self) -> u8
        ensures { result ≡ number_of (Demand self) }
    {
        match self {
            DemandModel::Undirected => 0,
            DemandModel::Directed => 1,
        }
    }
}

/// Which directions a link carries, and whether they share its capacity.
#[derive(Clone, Copy, Debug, PartialEq, Eq)]
pub enum LinkModel {
    /// `UNDIRECTED`: both directions share the capacity.
    Undirected,
    /// `DIRECTED`: from its source to its target alone.
    Directed,
    /// `BIDIRECTED`: each direction has a capacity of its own.
    Bidirected,
}

impl LinkModel {
    /// Its first spelling, and the others.
    pub(crate) fn words(self) -> (&'static [u8], &'static [&'static [u8]])
        ensures first { result.0.now ≡ spelling (Link self) }
        ensures others { map (λ word. word.now) result.1.now ≡ other_spellings (Link self) }
    {
        match self {
            LinkModel::Undirected => (b"UNDIRECTED", &[b"UNDIRECTED_LINKS"]),
            LinkModel::Directed => (b"DIRECTED", &[b"DIRECTED_LINKS"]),
            LinkModel::Bidirected => (b"BIDIRECTED", &[b"BIDIRECTED_LINKS"]),
        }
    }

    /// Its number in its row, from 0 on.
    pub(crate) fn number(self) -> u8
        ensures { result ≡ number_of (Link self) }
    {
        match self {
            LinkModel::Undirected => 0,
            LinkModel::Directed => 1,
            LinkModel::Bidirected => 2,
        }
    }
}

/// Which capacities a link may be given.
#[derive(Clone, Copy, Debug, PartialEq, Eq)]
pub enum CapacityModel {
    /// `MODULAR`: any whole number of each module.
    Modular,
    /// `LINEAR`
    Linear,
    /// `SINGLE_MODULAR`
    SingleModular,
    /// `EXPLICIT`
    Explicit,
}

impl CapacityModel {
    /// Its first spelling, and the others.
    pub(crate) fn words(self) -> (&'static [u8], &'static [&'static [u8]])
        ensures first { result.0.now ≡ spelling (Capacity self) }
        ensures others { map (λ word. word.now) result.1.now ≡ other_spellings (Capacity self) }
    {
        match self {
            CapacityModel::Modular => (
                b"MODULAR",
                &[b"MODULAR_CAPACITIES", b"MODULAR_LINK_CAPACITIES"],
            ),
            CapacityModel::Linear => (
                b"LINEAR",
                &[b"LINEAR_CAPACITIES", b"LINEAR_LINK_CAPACITIES"],
            ),
            CapacityModel::SingleModular => (b"SINGLE_MODULAR", &[b"SINGLE_MODULAR_CAPACITIES"]),
            CapacityModel::Explicit => (
                b"EXPLICIT",
                &[b"EXPLICIT_CAPACITIES", b"EXPLICIT_LINK_CAPACITIES"],
            ),
        }
    }

    /// Its number in its row, from 0 on.
    pub(crate) fn number(self) -> u8
        ensures { result ≡ number_of (Capacity self) }
    {
        match self {
            CapacityModel::Modular => 0,
            CapacityModel::Linear => 1,
            CapacityModel::SingleModular => 2,
            CapacityModel::Explicit => 3,
        }
    }
}

/// Whether a link that is used has a charge of its own.
#[derive(Clone, Copy, Debug, PartialEq, Eq)]
pub enum FixedChargeModel {
    /// `NO`
    No,
    /// `YES`
    Yes,
}

impl FixedChargeModel {
    /// Its first spelling, and the others.
    pub(crate) fn words(self) -> (&'static [u8], &'static [&'static [u8]])
        ensures first { result.0.now ≡ spelling (FixedCharge self) }
        ensures others { map (λ word. word.now) result.1.now ≡ other_spellings (FixedCharge self) }
    {
        match self {
            FixedChargeModel::No => (b"NO", &[b"NONE", b"NO_FIXED_CHARGE"]),
            FixedChargeModel::Yes => (b"YES", &[b"FIXED_CHARGE"]),
        }
    }

    /// Its number in its row, from 0 on.
    pub(crate) fn number(self) -> u8
        ensures { result ≡ number_of (FixedCharge self) }
    {
        match self {
            FixedChargeModel::No => 0,
            FixedChargeModel::Yes => 1,
        }
    }
}

/// How the load of a demand may be divided among paths.
#[derive(Clone, Copy, Debug, PartialEq, Eq)]
pub enum RoutingModel {
    /// `SINGLE_PATH`: the whole load on one path.
    SinglePath,
    /// `CONTINUOUS`
    Continuous,
    /// `INTEGER`
    Integer,
}

impl RoutingModel {
    /// Its first spelling, and the others.
    pub(crate) fn words(self) -> (&'static [u8], &'static [&'static [u8]])
        ensures first { result.0.now ≡ spelling (Routing self) }
        ensures others { map (λ word. word.now) result.1.now ≡ other_spellings (Routing self) }
    {
        match self {
            RoutingModel::SinglePath => (
                b"SINGLE_PATH",
                &[b"SINGLE_PATHS", b"SINGLE_PATH_ROUTING"],
            ),
            RoutingModel::Continuous => (b"CONTINUOUS", &[b"CONTINUOUS_ROUTING"]),
            RoutingModel::Integer => (b"INTEGER", &[b"INTEGER_ROUTING"]),
        }
    }

    /// Its number in its row, from 0 on.
    pub(crate) fn number(self) -> u8
        ensures { result ≡ number_of (Routing self) }
    {
        match self {
            RoutingModel::SinglePath => 0,
            RoutingModel::Continuous => 1,
            RoutingModel::Integer => 2,
        }
    }
}

/// Which paths a demand may take.
#[derive(Clone, Copy, Debug, PartialEq, Eq)]
pub enum PathModel {
    /// `ALL`: each simple path.
    All,
    /// `EXPLICIT`: those that the network lists.
    Explicit,
}

impl PathModel {
    /// Its first spelling, and the others.
    pub(crate) fn words(self) -> (&'static [u8], &'static [&'static [u8]])
        ensures first { result.0.now ≡ spelling (Path self) }
        ensures others { map (λ word. word.now) result.1.now ≡ other_spellings (Path self) }
    {
        match self {
            PathModel::All => (b"ALL", &[b"ALL_PATHS"]),
            PathModel::Explicit => (b"EXPLICIT", &[b"EXPLICIT_LIST"]),
        }
    }

    /// Its number in its row, from 0 on.
    pub(crate) fn number(self) -> u8
        ensures { result ≡ number_of (Path self) }
    {
        match self {
            PathModel::All => 0,
            PathModel::Explicit => 1,
        }
    }
}

/// Whether the length of paths is limited.
#[derive(Clone, Copy, Debug, PartialEq, Eq)]
pub enum HopModel {
    /// `NO`
    No,
    /// `YES`
    Yes,
}

impl HopModel {
    /// Its first spelling, and the others.
    pub(crate) fn words(self) -> (&'static [u8], &'static [&'static [u8]])
        ensures first { result.0.now ≡ spelling (Hop self) }
        ensures others { map (λ word. word.now) result.1.now ≡ other_spellings (Hop self) }
    {
        match self {
            HopModel::No => (b"NO", &[b"NONE", b"NO_HOP_LIMITS", b"IGNORE"]),
            HopModel::Yes => (b"YES", &[b"INDIVIDUAL", b"INDIVIDUAL_HOP_LIMITS"]),
        }
    }

    /// Its number in its row, from 0 on.
    pub(crate) fn number(self) -> u8
        ensures { result ≡ number_of (Hop self) }
    {
        match self {
            HopModel::No => 0,
            HopModel::Yes => 1,
        }
    }
}

/// Which failures the network is to survive, and how.
#[derive(Clone, Copy, Debug, PartialEq, Eq)]
pub enum SurvivabilityModel {
    /// `NO`
    No,
    /// `YES`
    Yes,
    /// `ONE_PLUS_ONE_PROTECTION`
    OnePlusOne,
    /// `SHARED_PATH_PROTECTION`
    SharedPath,
    /// `UNRESTRICTED_FLOW_RECONFIGURATION`
    Unrestricted,
}

impl SurvivabilityModel {
    /// Its first spelling, and the others.
    pub(crate) fn words(self) -> (&'static [u8], &'static [&'static [u8]])
        ensures first { result.0.now ≡ spelling (Survivability self) }
        ensures others { map (λ word. word.now) result.1.now ≡ other_spellings (Survivability self) }
    {
        match self {
            SurvivabilityModel::No => (b"NO", &[b"NONE", b"NO_SURVIVABILITY"]),
            SurvivabilityModel::Yes => (b"YES", &[]),
            SurvivabilityModel::OnePlusOne => (b"ONE_PLUS_ONE_PROTECTION", &[]),
            SurvivabilityModel::SharedPath => (b"SHARED_PATH_PROTECTION", &[]),
            SurvivabilityModel::Unrestricted => (b"UNRESTRICTED_FLOW_RECONFIGURATION", &[]),
        }
    }

    /// Its number in its row, from 0 on.
    pub(crate) fn number(self) -> u8
        ensures { result ≡ number_of (Survivability self) }
    {
        match self {
            SurvivabilityModel::No => 0,
            SurvivabilityModel::Yes => 1,
            SurvivabilityModel::OnePlusOne => 2,
            SurvivabilityModel::SharedPath => 3,
            SurvivabilityModel::Unrestricted => 4,
        }
    }
}
