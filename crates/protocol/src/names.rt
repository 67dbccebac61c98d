// The words that are names: of calls, of hosts and of kinds of blocks. It knows nothing of numbers and bytes.
ghost use Rattle.std.specs.Prelude.{◌≡◌, MatchOption, ◌≢◌};
ghost use Rattle.awl.specs.Names.{kind_letters};
ghost use Rattle.awl.specs.declared.names.BlockKind.{BlockKind};
ghost use Rattle.protocol.specs.declared.names.HostKind.{HostKind};
ghost use Rattle.protocol.specs.declared.names.Verb.{Verb};
ghost use Rattle.protocol.specs.Names.{verb_name, host_kind_name};

use awl::names::BlockKind;

// The first word of a call.
#[derive(Clone, Copy)]
pub(crate) enum Verb {
    Project(ProjectVerb),
    NewHost, // host
    Host(HostVerb),
}

#[derive(Clone, Copy)]
pub(crate) enum ProjectVerb {
    Open,
    Write,
    Erase,
    Lay,
    Check,
    Word,
    Data,
}

#[derive(Clone, Copy)]
pub(crate) enum HostVerb {
    SetElapsed, // setd
    SetInput, // seti
    Input,
    Output,
    Elapsed,
    Taken,
    Outputs,
    Give,
    Advance,
}

// The third word of a `host` call.
#[derive(Clone, Copy)]
pub(crate) enum HostKind {
    Bench,
    Feed,
    MaskBench,
    MaskFeed,
}

// The first word of a call that the bytes are, or none.
pub(crate) fn verb_named(word: &[u8]) -> Option<Verb>
    ensures value { MatchOption result ((v : Verb) → verb_name v ≢ word.now) (λ v. verb_name v ≡ word.now) }
{
    match word {
        b"open" => Some(Verb::Project(ProjectVerb::Open)),
        b"write" => Some(Verb::Project(ProjectVerb::Write)),
        b"erase" => Some(Verb::Project(ProjectVerb::Erase)),
        b"lay" => Some(Verb::Project(ProjectVerb::Lay)),
        b"check" => Some(Verb::Project(ProjectVerb::Check)),
        b"word" => Some(Verb::Project(ProjectVerb::Word)),
        b"data" => Some(Verb::Project(ProjectVerb::Data)),
        b"host" => Some(Verb::NewHost),
        b"setd" => Some(Verb::Host(HostVerb::SetElapsed)),
        b"seti" => Some(Verb::Host(HostVerb::SetInput)),
        b"input" => Some(Verb::Host(HostVerb::Input)),
        b"output" => Some(Verb::Host(HostVerb::Output)),
        b"elapsed" => Some(Verb::Host(HostVerb::Elapsed)),
        b"taken" => Some(Verb::Host(HostVerb::Taken)),
        b"outputs" => Some(Verb::Host(HostVerb::Outputs)),
        b"give" => Some(Verb::Host(HostVerb::Give)),
        b"advance" => Some(Verb::Host(HostVerb::Advance)),
        _ => None,
    }
}

// The kind of host that the bytes name, or none.
pub(crate) fn host_kind_named(word: &[u8]) -> Option<HostKind>
    ensures value { MatchOption result ((k : HostKind) → host_kind_name k ≢ word.now) (λ k. host_kind_name k ≡ word.now) }
{
    match word {
        b"bench" => Some(HostKind::Bench),
        b"feed" => Some(HostKind::Feed),
        b"maskbench" => Some(HostKind::MaskBench),
        b"maskfeed" => Some(HostKind::MaskFeed),
        _ => None,
    }
}

// The kind of block that the bytes name, or none.
pub(crate) fn block_kind_named(word: &[u8]) -> Option<BlockKind>
    ensures value { MatchOption result ((k : BlockKind) → kind_letters k ≢ word.now) (λ k. kind_letters k ≡ word.now) }
{
    match word {
        b"OB" => Some(BlockKind::Organisation),
        b"PB" => Some(BlockKind::Program),
        b"FB" => Some(BlockKind::Function),
        _ => None,
    }
}
