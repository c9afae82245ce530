//! The table of the shipped rules, as it is written.

/// The rules in order, each as it is printed.
pub const TABLE: [&str; 96] = [
    "(define-rule bool-not-not ((p Bool)) (not (not p)) p)",
    "(define-rule bool-and-true ((ps Bool :list) (qs Bool :list)) (and ps true qs) (and \
        ps qs))",
    "(define-rule bool-and-false ((ps Bool :list) (qs Bool :list)) (and ps false qs) \
        false)",
    "(define-rule bool-and-flat ((ps Bool :list) (qs Bool :list) (rs Bool :list)) (and ps \
        (and qs) rs) (and ps qs rs))",
    "(define-rule bool-and-dup ((p Bool) (ps Bool :list) (qs Bool :list) (rs Bool :list)) \
        (and ps p qs p rs) (and ps p qs rs))",
    "(define-rule bool-and-conf ((p Bool) (ps Bool :list) (qs Bool :list) (rs Bool \
        :list)) (and ps p qs (not p) rs) false)",
    "(define-rule bool-or-false ((ps Bool :list) (qs Bool :list)) (or ps false qs) (or ps \
        qs))",
    "(define-rule bool-or-true ((ps Bool :list) (qs Bool :list)) (or ps true qs) true)",
    "(define-rule bool-or-flat ((ps Bool :list) (qs Bool :list) (rs Bool :list)) (or ps \
        (or qs) rs) (or ps qs rs))",
    "(define-rule bool-or-dup ((p Bool) (ps Bool :list) (qs Bool :list) (rs Bool :list)) \
        (or ps p qs p rs) (or ps p qs rs))",
    "(define-rule bool-or-taut ((p Bool) (ps Bool :list) (qs Bool :list) (rs Bool :list)) \
        (or ps p qs (not p) rs) true)",
    "(define-rule bool-and-comm ((p Bool) (q Bool)) (and p q) (and q p))",
    "(define-rule bool-or-comm ((p Bool) (q Bool)) (or p q) (or q p))",
    "(define-rule* bool-and-de-morgan ((p Bool) (q Bool) (ps Bool :list)) (not (and p q \
        ps)) (not (and q ps)) (or (not p) _))",
    "(define-rule* bool-or-de-morgan ((p Bool) (q Bool) (ps Bool :list)) (not (or p q \
        ps)) (not (or q ps)) (and (not p) _))",
    "(define-rule bool-impl-elim ((p Bool) (q Bool)) (=> p q) (or (not p) q))",
    "(define-rule bool-xor-false ((p Bool)) (xor p false) p)",
    "(define-rule bool-xor-true ((p Bool)) (xor p true) (not p))",
    "(define-rule bool-xor-refl ((p Bool)) (xor p p) false)",
    "(define-rule ite-true ((a Sort) (x a) (y a)) (ite true x y) x)",
    "(define-rule ite-false ((a Sort) (x a) (y a)) (ite false x y) y)",
    "(define-rule ite-same ((a Sort) (p Bool) (x a)) (ite p x x) x)",
    "(define-rule ite-not ((a Sort) (p Bool) (x a) (y a)) (ite (not p) x y) (ite p y x))",
    "(define-rule ite-bool ((p Bool)) (ite p true false) p)",
    "(define-rule ite-then ((a Sort) (p Bool) (x a) (y a) (z a)) (ite p (ite p x y) z) \
        (ite p x z))",
    "(define-rule ite-else ((a Sort) (p Bool) (x a) (y a) (z a)) (ite p x (ite p y z)) \
        (ite p x z))",
    "(define-cond-rule ite-cond ((a Sort) (p Bool) (x a) (y a)) p (ite p x y) x)",
    "(define-rule eq-refl ((a Sort) (x a)) (= x x) true)",
    "(define-rule eq-symm ((a Sort) (x a) (y a)) (= x y) (= y x))",
    "(define-rule eq-true ((p Bool)) (= p true) p)",
    "(define-rule eq-false ((p Bool)) (= p false) (not p))",
    "(define-rule distinct-elim ((a Sort) (x a) (y a)) (distinct x y) (not (= x y)))",
    "(define-rule int-add-zero ((is Int :list) (js Int :list)) (+ is 0 js) (+ is js))",
    "(define-rule int-add-flat ((is Int :list) (js Int :list) (ks Int :list)) (+ is (+ \
        js) ks) (+ is js ks))",
    "(define-rule int-add-comm ((i Int) (j Int)) (+ i j) (+ j i))",
    "(define-rule int-add-cancel ((i Int) (is Int :list) (js Int :list) (ks Int :list)) \
        (+ is i js (- i) ks) (+ is js ks))",
    "(define-rule int-mul-one ((is Int :list) (js Int :list)) (* is 1 js) (* is js))",
    "(define-rule int-mul-zero ((is Int :list) (js Int :list)) (* is 0 js) 0)",
    "(define-rule int-minus-self ((i Int)) (- i i) 0)",
    "(define-rule int-sub-elim ((i Int) (j Int)) (- i j) (+ i (- j)))",
    "(define-rule int-neg-neg ((i Int)) (- (- i)) i)",
    "(define-rule int-distrib ((i Int) (j Int) (k Int)) (* i (+ j k)) (+ (* i j) (* i \
        k)))",
    "(define-rule int-gt-elim ((i Int) (j Int)) (> i j) (not (<= i j)))",
    "(define-rule int-lt-elim ((i Int) (j Int)) (< i j) (not (<= j i)))",
    "(define-rule int-ge-elim ((i Int) (j Int)) (>= i j) (<= j i))",
    "(define-rule int-le-refl ((i Int)) (<= i i) true)",
    "(define-rule int-div-one ((i Int)) (div i 1) i)",
    "(define-rule int-mod-one ((i Int)) (mod i 1) 0)",
    "(define-cond-rule int-mod-small ((i Int) (j Int)) (and (<= 0 i) (< i j)) (mod i j) \
        i)",
    "(define-cond-rule int-div-self ((i Int)) (not (= i 0)) (div i i) 1)",
    "(define-cond-rule int-mod-mod ((i Int) (j Int)) (not (= j 0)) (mod (mod i j) j) (mod \
        i j))",
    "(define-rule int-abs-elim ((i Int)) (abs i) (ite (<= 0 i) i (- i)))",
    "(define-rule arr-select-same ((a Sort) (b Sort) (t (Array a b)) (i a) (u b)) (select \
        (store t i u) i) u)",
    "(define-cond-rule arr-select-other ((a Sort) (b Sort) (t (Array a b)) (i a) (j a) (u \
        b)) (not (= i j)) (select (store t i u) j) (select t j))",
    "(define-rule arr-select-ite ((a Sort) (b Sort) (t (Array a b)) (i a) (j a) (u b)) \
        (select (store t i u) j) (ite (= i j) u (select t j)))",
    "(define-rule arr-store-same ((a Sort) (b Sort) (t (Array a b)) (i a) (u b) (v b)) \
        (store (store t i u) i v) (store t i v))",
    "(define-rule arr-store-select ((a Sort) (b Sort) (t (Array a b)) (i a)) (store t i \
        (select t i)) t)",
    "(define-cond-rule arr-store-swap ((a Sort) (b Sort) (t (Array a b)) (i a) (j a) (u \
        b) (v b)) (not (= i j)) (store (store t i u) j v) (store (store t j v) i u))",
    "(define-rule bv-add-zero ((n Width) (xs (BitVec n) :list) (ys (BitVec n) :list)) \
        (bvadd xs (bv 0 n) ys) (bvadd xs ys))",
    "(define-rule bv-add-flat ((n Width) (xs (BitVec n) :list) (ys (BitVec n) :list) (zs \
        (BitVec n) :list)) (bvadd xs (bvadd ys) zs) (bvadd xs ys zs))",
    "(define-rule bv-add-cancel ((n Width) (x (BitVec n)) (xs (BitVec n) :list) (ys \
        (BitVec n) :list) (zs (BitVec n) :list)) (bvadd xs x ys (bvneg x) zs) (bvadd xs ys \
        zs))",
    "(define-rule bv-mul-one ((n Width) (xs (BitVec n) :list) (ys (BitVec n) :list)) \
        (bvmul xs (bv 1 n) ys) (bvmul xs ys))",
    "(define-rule bv-mul-zero ((n Width) (xs (BitVec n) :list) (ys (BitVec n) :list)) \
        (bvmul xs (bv 0 n) ys) (bv 0 n))",
    "(define-rule bv-neg-elim ((n Width) (x (BitVec n))) (bvneg x) (bvadd (bvnot x) (bv 1 \
        n)))",
    "(define-rule bv-sub-elim ((n Width) (x (BitVec n)) (y (BitVec n))) (bvsub x y) \
        (bvadd x (bvneg y)))",
    "(define-rule bv-ugt-elim ((n Width) (x (BitVec n)) (y (BitVec n))) (bvugt x y) \
        (bvult y x))",
    "(define-rule bv-uge-elim ((n Width) (x (BitVec n)) (y (BitVec n))) (bvuge x y) (not \
        (bvult x y)))",
    "(define-rule bv-ule-elim ((n Width) (x (BitVec n)) (y (BitVec n))) (bvule x y) (not \
        (bvult y x)))",
    "(define-rule bv-sgt-elim ((n Width) (x (BitVec n)) (y (BitVec n))) (bvsgt x y) \
        (bvslt y x))",
    "(define-rule bv-ult-refl ((n Width) (x (BitVec n))) (bvult x x) false)",
    "(define-rule bv-ult-zero ((n Width) (x (BitVec n))) (bvult x (bv 0 n)) false)",
    "(define-rule bv-udiv-zero ((n Width) (x (BitVec n))) (bvudiv x (bv 0 n)) (bv (- 1) \
        n))",
    "(define-rule bv-urem-zero ((n Width) (x (BitVec n))) (bvurem x (bv 0 n)) x)",
    "(define-rule bv-and-ones ((n Width) (xs (BitVec n) :list) (ys (BitVec n) :list)) \
        (bvand xs (bv (- 1) n) ys) (bvand xs ys))",
    "(define-rule bv-and-zero ((n Width) (xs (BitVec n) :list) (ys (BitVec n) :list)) \
        (bvand xs (bv 0 n) ys) (bv 0 n))",
    "(define-rule bv-and-flat ((n Width) (xs (BitVec n) :list) (ys (BitVec n) :list) (zs \
        (BitVec n) :list)) (bvand xs (bvand ys) zs) (bvand xs ys zs))",
    "(define-rule bv-and-dup ((n Width) (x (BitVec n)) (xs (BitVec n) :list) (ys (BitVec \
        n) :list) (zs (BitVec n) :list)) (bvand xs x ys x zs) (bvand xs x ys zs))",
    "(define-rule bv-and-compl ((n Width) (x (BitVec n)) (xs (BitVec n) :list) (ys \
        (BitVec n) :list) (zs (BitVec n) :list)) (bvand xs x ys (bvnot x) zs) (bv 0 n))",
    "(define-rule* bv-and-de-morgan ((n Width) (x (BitVec n)) (y (BitVec n)) (xs (BitVec \
        n) :list)) (bvnot (bvand x y xs)) (bvnot (bvand y xs)) (bvor (bvnot x) _))",
    "(define-rule bv-or-zero ((n Width) (xs (BitVec n) :list) (ys (BitVec n) :list)) \
        (bvor xs (bv 0 n) ys) (bvor xs ys))",
    "(define-rule bv-or-ones ((n Width) (xs (BitVec n) :list) (ys (BitVec n) :list)) \
        (bvor xs (bv (- 1) n) ys) (bv (- 1) n))",
    "(define-rule bv-or-flat ((n Width) (xs (BitVec n) :list) (ys (BitVec n) :list) (zs \
        (BitVec n) :list)) (bvor xs (bvor ys) zs) (bvor xs ys zs))",
    "(define-rule bv-or-compl ((n Width) (x (BitVec n)) (xs (BitVec n) :list) (ys (BitVec \
        n) :list) (zs (BitVec n) :list)) (bvor xs x ys (bvnot x) zs) (bv (- 1) n))",
    "(define-rule bv-xor-zero ((n Width) (xs (BitVec n) :list) (ys (BitVec n) :list)) \
        (bvxor xs (bv 0 n) ys) (bvxor xs ys))",
    "(define-rule bv-xor-ones ((n Width) (xs (BitVec n) :list) (ys (BitVec n) :list)) \
        (bvxor xs (bv (- 1) n) ys) (bvnot (bvxor xs ys)))",
    "(define-rule bv-xor-dup ((n Width) (x (BitVec n)) (xs (BitVec n) :list) (ys (BitVec \
        n) :list) (zs (BitVec n) :list)) (bvxor xs x ys x zs) (bvxor xs ys zs))",
    "(define-rule bv-not-not ((n Width) (x (BitVec n))) (bvnot (bvnot x)) x)",
    "(define-rule bv-comp-elim ((n Width) (x (BitVec n)) (y (BitVec n))) (bvcomp x y) \
        (ite (= x y) (bv 1 1) (bv 0 1)))",
    "(define-rule bv-shl-const ((n Width) (k Index) (x (BitVec n))) :where ((>= (+ k (- \
        1)) 0) (>= (+ n (* (- 1) k) (- 1)) 0)) (bvshl x (bv k n)) (concat (extract (+ n (* \
        (- 1) k) (- 1)) 0 x) (bv 0 k)))",
    "(define-rule bv-lshr-const ((n Width) (k Index) (x (BitVec n))) :where ((>= (+ k (- \
        1)) 0) (>= (+ n (* (- 1) k) (- 1)) 0)) (bvlshr x (bv k n)) (concat (bv 0 k) (extract \
        (+ n (- 1)) k x)))",
    "(define-rule bv-extract-whole ((n Width) (x (BitVec n))) (extract (+ n (- 1)) 0 x) \
        x)",
    "(define-rule bv-extract-extract ((n Width) (i Index) (j Index) (k Index) (l Index) \
        (x (BitVec n))) (extract j i (extract l k x)) (extract (+ j k) (+ i k) x))",
    "(define-rule bv-extract-concat-low ((i Index) (j Index) (us ?BitVec :list) (w \
        ?BitVec)) :where ((>= (+ (* (- 1) j) (bvsize w) (- 1)) 0)) (extract j i (concat us \
        w)) (extract j i w))",
    "(define-rule bv-extract-concat-high ((i Index) (j Index) (us ?BitVec :list) (w \
        ?BitVec)) :where ((>= (+ i (* (- 1) (bvsize us))) 0)) (extract j i (concat w us)) \
        (extract (+ j (* (- 1) (bvsize us))) (+ i (* (- 1) (bvsize us))) w))",
    "(define-rule bv-concat-extract ((n Width) (i Index) (j Index) (k Index) (x (BitVec \
        n)) (us ?BitVec :list) (vs ?BitVec :list)) (concat us (extract k j x) (extract (+ j \
        (- 1)) i x) vs) (concat us (extract k i x) vs))",
    "(define-rule bv-zero-extend ((n Width) (k Index) (x (BitVec n))) :where ((>= (+ k (- \
        1)) 0)) (zero_extend k x) (concat (bv 0 k) x))",
];
