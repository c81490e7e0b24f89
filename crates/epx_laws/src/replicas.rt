//! Laws of replicas that execute what they know of one map, while others know more.
ghost use Rattle.epx_laws.specs.ReplicaLaws.{PrefixesStay, PartsAreCovered};
ghost use Rattle.epx_laws.specs.ReplicaLaws.{ReplicasReplyAlike, ReplicasStoreAlike};

/// What a replica has executed stays lawful, whatever is committed later.
pub fn prefixes_stay()
    ensures { PrefixesStay }
{}

/// Each part of a covered map is covered.
pub fn parts_are_covered()
    ensures { PartsAreCovered }
{}

/// Replicas that know parts of one covered map give the same reply to each instance that both have
/// executed.
pub fn replicas_reply_alike()
    ensures { ReplicasReplyAlike }
{}

/// If they have executed the same instances, they have the same contents.
pub fn replicas_store_alike()
    ensures { ReplicasStoreAlike }
{}
