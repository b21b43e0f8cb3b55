//! Generated traces, whose texts were worked out apart from the program.
ghost use Rattle.std.specs.Prelude.{◌≡◌, [], ◌∷◌};
ghost use Rattle.ea_model.specs.declared.operations.Op.TheVariants.{Alloc, Free, Give, Take};
ghost use Rattle.ea_gen.specs.Generated.{generated};

/// The definition's texts. The second scheduler of three gives an own name that is not its oldest.
pub fn worked_texts()
    ensures one { generated 1 1 3 ≡ (Alloc 1 3632 ∷ Alloc 2 91268 ∷ Free 1 ∷ []) ∷ [] }
    ensures three { generated 8 3 9
        ≡ (Alloc 1 81888 ∷ Alloc 2 44620 ∷ Give 1 2 ∷ Give 2 2 ∷ Alloc 5 88408 ∷ Free 5
        ∷ Alloc 7 52788 ∷ Alloc 8 28584 ∷ Free 7 ∷ [])
        ∷ (Alloc 10 18172 ∷ Take 1 1 ∷ Free 10 ∷ Take 2 1 ∷ Free 1 ∷ Alloc 15 8936
        ∷ Alloc 16 80648 ∷ Alloc 17 110368 ∷ Give 15 3 ∷ [])
        ∷ (Alloc 19 85524 ∷ Alloc 20 50016 ∷ Alloc 21 45484 ∷ Alloc 22 17072 ∷ Alloc 23 46688
        ∷ Take 15 1 ∷ Free 19 ∷ Free 20 ∷ Alloc 27 97380 ∷ []) ∷ [] }
{}
