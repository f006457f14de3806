// What a voice says of a state: pairs of a mean and a variance, window sets, records.
// By path: `model::mean_vari::MeanVari`, `model::mean_vari::sum`, `model::voice::window::check`, `model::voice::model::parameter`.
#![tactic(auto)]

pub mod mean_vari;
pub mod voice;
