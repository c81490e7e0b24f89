//! Laws of what the lines of logs commit.
ghost use Rattle.epx_laws.specs.AgreementLaws.{PositionHasInstance, CommittedMapIsUnique};
ghost use Rattle.epx_laws.specs.AgreementLaws.{CommittedLinesAgree, DisagreementExcludesAgreement};
ghost use Rattle.epx_laws.specs.AgreementLaws.{FirstDisagreementIsUnique, LookUpFindsInstance};
ghost use Rattle.epx_laws.specs.AgreementLaws.{SameInstancesCommitAlike};

/// Lines have at most one committed map.
pub fn committed_map_is_unique()
    ensures { CommittedMapIsUnique }
{}

/// Lines that have a committed map agree.
pub fn committed_lines_agree()
    ensures { CommittedLinesAgree }
{}

/// Lines with a first disagreement do not agree.
pub fn disagreement_excludes_agreement()
    ensures { DisagreementExcludesAgreement }
{}

/// Lines with distinct places have at most one first disagreement.
pub fn first_disagreement_is_unique()
    ensures { FirstDisagreementIsUnique }
{}

/// A look-up of an Id finds exactly the instance of that Id.
pub fn look_up_finds_instance()
    ensures { LookUpFindsInstance }
{}

/// The position of an Id is the position of its instance in the map.
pub fn position_has_instance()
    ensures { PositionHasInstance }
{}

/// Lines with the same instances commit the same map.
pub fn same_instances_commit_alike()
    ensures { SameInstancesCommitAlike }
{}
