// Load and the requests on a state, which may alter it, with what they tell.
use crate::output::Told;
use gate::Effect;
use policy::State;

pub(crate) fn load(state: &mut State, image: &[u8]) -> Told {
    let loaded = image::load(*state, image);
    *state = loaded.state;
    Told::Answer(loaded.answer)
}

// What a request may have altered is stored, as every caller does.
pub(crate) fn store(effect: Effect, state: &mut State) -> Told {
    let slots = effect.slots;
    state.slots = slots;
    if let Some(file) = state.files.get_mut(effect.at) {
        *file = effect.file;
    }
    Told::Answer(effect.answer)
}

// The numbers of begin, end, ask, change, bypass: first as a well-formed state grants them all, then with a slot number over 15 and all else wrong.
pub(crate) fn five(s: &State) -> Told {
    Told::Numbers(
        [
            gate::begin(s, 1, 0).answer.number,
            gate::end(s, 0).answer.number,
            gate::ask(s, 0, 0, 4).answer.number,
            gate::change(s, 0, 0, 4, b"", b"").answer.number,
            gate::bypass(s, 0, 0, 4, b"", b"").answer.number,
        ],
        [
            gate::begin(s, 16, 255).answer.number,
            gate::end(s, 16).answer.number,
            gate::ask(s, 16, 255, 255).answer.number,
            gate::change(s, 255, 255, 255, b"\x05", b"\x05")
                .answer
                .number,
            gate::bypass(s, 255, 255, 255, b"\x05", b"\x05")
                .answer
                .number,
        ],
    )
}
