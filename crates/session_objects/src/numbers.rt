//! How many benches and workers a session has.
ghost use Rattle.std.specs.Prelude.{◌≡◌, ◌<◌, ◌≤◌};
ghost use Rattle.session_meaning.specs.WellFormed.{KeepsLimits};
ghost use Rattle.session_objects.specs.Shape.{benches, each, workers};

use grant_registry::Registry;

// Of one host.
pub(crate) fn bench_each(registry: &Registry) -> u32
    ensures value { result ≡ each registry.now }
    ensures some { (0 < result) × (result ≤ 64) }
{
    registry.hosts();
    8 * registry.workers()
}

pub(crate) fn bench_count(registry: &Registry) -> u32
    ensures value { result ≡ benches registry.now }
    ensures limits { KeepsLimits registry.now }
    ensures some { (0 < result) × (result ≤ 1024) }
{
    8 * registry.hosts() * registry.workers()
}

pub(crate) fn worker_count(registry: &Registry) -> u32
    ensures value { result ≡ workers registry.now }
    ensures some { result ≤ 128 }
{
    registry.hosts() * registry.workers()
}
